// What six words ask for: how far two labels grow.
ghost use Rattle.std.specs.Prelude.{◌≡◌, ◌≤◌};
ghost use Rattle.grow.specs.Asked.{number_given, place_given, growth_by_words};

use desk::Word;
use growth::how_far;
use placing::units::{Growth, Limits, Place, Units};
use plan::number::coordinate_from;
use plan::refusal::Refusal;
use std::rt::Env;

// The words of a label.
#[derive(Clone, Copy)]
pub(crate) struct LabelWords {
    pub x: Word,
    pub y: Word,
    pub corner: Word,
}

// The words of two labels.
#[derive(Clone, Copy)]
pub(crate) struct SixWords {
    pub own: LabelWords,
    pub other: LabelWords,
}

// The words of a label, of which the first has this number.
fn label_at(rt: &impl Env, first: usize) -> LabelWords
    requires { first ≤ 4 }
{
    LabelWords {
        x: Word::at(rt, first),
        y: Word::at(rt, first + 1),
        corner: Word::at(rt, first + 2),
    }
}

// The number that a word writes, up to 10,000. Any other word gives 10,001, which is neither a coordinate nor a corner. A number and no
// Option, since `how_far` takes any numbers, and `outside` and the edit no_number_as_10000 speak of it.
pub(crate) fn number_given(word: &Word) -> u32
    ensures { result ≡ number_given word.now }
{
    coordinate_from(word.text()).map_or(Limits::COORDINATE + 1, |units| units.0)
}

fn place_given(label: &LabelWords) -> Place
    ensures { result ≡ place_given label.now }
{
    Place {
        x: Units(number_given(&label.x)),
        y: Units(number_given(&label.y)),
    }
}

impl SixWords {
    // The words behind the program's name.
    pub(crate) fn given(rt: &impl Env) -> SixWords {
        SixWords {
            own: label_at(rt, 1),
            other: label_at(rt, 4),
        }
    }

    // How far the labels grow that the words give.
    pub(crate) fn growth(&self) -> Result<Growth, Refusal>
        ensures { result ≡ growth_by_words self.now.own self.now.other }
    {
        let c = number_given(&self.own.corner);
        let e = number_given(&self.other.corner);
        how_far(place_given(&self.own), c, place_given(&self.other), e)
    }
}
