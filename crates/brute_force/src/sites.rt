// The sites of a small list, without their names.
use std::fmt;

// No list has more sites.
pub const MOST_SITES: usize = 7;

// The names of the sites, in list order.
pub const NAMES: &str = "ABCDEFG";

#[derive(Clone, Copy, Default, PartialEq, Eq)]
pub struct Place {
    pub x: u32,
    pub y: u32,
}

impl fmt::Display for Place {
    fn fmt<W: fmt::Write>(&self, f: &mut fmt::Formatter<W>) -> fmt::Result {
        write!(f, "{}\t{}", self.x, self.y)
    }
}

// A list, to be written as text.
#[derive(Clone, Copy)]
pub struct List<'a>(pub &'a [Place]);

impl fmt::Display for List<'_> {
    fn fmt<W: fmt::Write>(&self, f: &mut fmt::Formatter<W>) -> fmt::Result {
        for (place, name) in self.0.iter().zip(NAMES.chars()) {
            writeln!(f, "{name}\t{place}")?;
        }
        Ok(())
    }
}

// Three sites or more, all with one x or all with one y.
pub fn in_one_row(sites: &[Place]) -> bool {
    match sites {
        [first, _, _, ..] => {
            sites.iter().all(|place| place.x == first.x)
                || sites.iter().all(|place| place.y == first.y)
        }
        _ => false,
    }
}
