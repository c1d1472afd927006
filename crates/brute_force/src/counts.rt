// What was counted over all lists.
use placing::way::Way;
use std::fmt;

// A count. It stops at the greatest number, so that nothing is asked of it; none comes near.
#[derive(Clone, Copy, Default)]
pub struct Count(u64);

// By one way.
#[derive(Clone, Copy, Default)]
pub struct Counts {
    pub lists: Count,
    pub free: Count,
    pub even: Count,
    pub odd: Count,
    pub differences: Count,
    pub given: Count,
    pub without: Count,
    pub differences_at: Count,
}

// By each way. By the usual one also how many lists are in one straight row and have a choice over twice their side; above the spot, how
// many have a smaller, the same and a greater side than by the usual way, free being the greatest.
#[derive(Clone, Copy, Default)]
pub struct Tally {
    pub usual: Counts,
    pub in_one_row: Count,
    pub over_twice: Count,
    pub above: Counts,
    pub smaller: Count,
    pub same: Count,
    pub greater: Count,
}

impl Count {
    // One more where `yes`.
    pub fn add(&mut self, yes: bool) {
        self.0 = self.0.saturating_add(u64::from(yes));
    }
}

impl Tally {
    // What was counted by this way.
    pub fn by(&mut self, way: Way) -> &mut Counts {
        match way {
            Way::Usual => &mut self.usual,
            Way::Above => &mut self.above,
        }
    }
}

impl fmt::Display for Count {
    fn fmt<W: fmt::Write>(&self, f: &mut fmt::Formatter<W>) -> fmt::Result {
        write!(f, "{}", self.0)
    }
}

impl fmt::Display for Counts {
    fn fmt<W: fmt::Write>(&self, f: &mut fmt::Formatter<W>) -> fmt::Result {
        writeln!(f, "{} lists", self.lists)?;
        writeln!(f, "{} free", self.free)?;
        writeln!(f, "{} with an even side", self.even)?;
        writeln!(f, "{} with an odd side", self.odd)?;
        writeln!(f, "{} differences", self.differences)?;
        writeln!(f, "{} given sides", self.given)?;
        writeln!(f, "{} without a good choice", self.without)?;
        writeln!(f, "{} differences there", self.differences_at)
    }
}

impl fmt::Display for Tally {
    fn fmt<W: fmt::Write>(&self, f: &mut fmt::Formatter<W>) -> fmt::Result {
        write!(f, "{}:\n{}", name_of(Way::Usual), self.usual)?;
        writeln!(f, "{} in one straight row", self.in_one_row)?;
        writeln!(
            f,
            "{} with a choice that holds at 2 x side + 1",
            self.over_twice
        )?;
        write!(f, "{}:\n{}", name_of(Way::Above), self.above)?;
        writeln!(f, "{} with a smaller side than the usual way", self.smaller)?;
        writeln!(f, "{} with the same side", self.same)?;
        writeln!(f, "{} with a greater side", self.greater)
    }
}

// Display is not ours to give, since the type is of placing.
pub fn name_of(way: Way) -> &'static str {
    match way {
        Way::Usual => "usual way",
        Way::Above => "above",
    }
}
