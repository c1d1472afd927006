// An answer to a list.
ghost use Rattle.std.specs.Prelude.{◌≡◌, None};

use crate::labels::Labels;
use crate::side::Side;
use crate::sites::NAMES;
use std::fmt;

// A side, and the labels of a choice that is good there, if one is.
#[derive(Drop)]
pub struct Answer {
    pub side: Side,
    pub labels: Option<Labels>,
}

impl Answer {
    // No choice is good at this side.
    pub fn none(side: Side) -> Answer
        ensures { result ≡ record { side = side; labels = None } }
    {
        Answer { side, labels: None }
    }
}

// The sheet, or the refusal where no choice is good, from documents 01 and 02 alone.
impl fmt::Display for Answer {
    fn fmt<W: fmt::Write>(&self, f: &mut fmt::Formatter<W>) -> fmt::Result {
        let Some(labels) = &self.labels else {
            return writeln!(f, "refused\t12");
        };
        writeln!(f, "side\t{}", self.side)?;
        for (label, name) in labels.iter().zip(NAMES.chars()) {
            writeln!(f, "{name}\t{}\t{}", label.place, label.corner)?;
        }
        Ok(())
    }
}
