// What the program is asked for by the words behind its name.
ghost use Rattle.std.specs.Prelude.{◌≡◌};
ghost use Rattle.place.specs.Asked.{is_above, side_task, task_of};

use desk::{Word, word_count};
use placing::units::Side;
use placing::way::Way;
use plan::number::side_from;
use std::rt::Env;

// How a list is placed: by which way, and at a given side, or at the one that is found.
#[derive(Clone, Copy)]
pub(crate) struct How {
    pub way: Way,
    pub at: Option<Side>,
}

fn is_above(word: &Word) -> bool
    ensures { result ≡ is_above word.now }
{
    word.text() == b"above".as_slice()
}

// The word free, and a word that starts with a digit, ask for the side that they write, be it one or not; other words ask for none.
fn side_asked(way: Way, word: &Word) -> Option<How>
    ensures { result ≡ side_task way word.now }
{
    let side = side_from(word.text());
    if side == Side::Free || word.first().is_ascii_digit() {
        return Some(How {
            way,
            at: Some(side),
        });
    }
    None
}

// By the number of words, and the first two of them: how a list is placed, or nothing where the usage is told.
fn words_asked(words: usize, one: &Word, two: &Word) -> Option<How>
    ensures { result ≡ task_of words one.now two.now }
{
    match words {
        0 => Some(How {
            way: Way::Usual,
            at: None,
        }),
        1 if is_above(one) => Some(How {
            way: Way::Above,
            at: None,
        }),
        1 => side_asked(Way::Usual, one),
        2 if is_above(one) => side_asked(Way::Above, two),
        _ => None,
    }
}

// What the arguments ask for. Those that are missing are words of no bytes.
pub(crate) fn asked(rt: &impl Env) -> Option<How> {
    words_asked(word_count(rt), &Word::at(rt, 1), &Word::at(rt, 2))
}
