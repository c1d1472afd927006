// Why a list is refused, on standard error: the line, the rule in words, and a hint where a common cause shows in the line's bytes.
ghost use Rattle.place.specs.Reply.{IsRefused};

use crate::asked::How;
use desk::tell;
use hints::{Explanation, Hint, explain};
use plan::calls::is_side;
use plan::refusal::Refusal;
use std::io::{Cursor, Write};

// Room for the line of a hint: the longest has 109 bytes.
const HINT_LINE: usize = 128;

// The rule in words, to the end of the line. The table of a line (`line_tests`) has no refusals but these six.
fn rule(why: Refusal) -> &'static [u8] {
    match why {
        Refusal::BadLine => {
            b"a line of other than three fields, over 20 bytes, or without its line feed\n"
        }
        Refusal::BadName => b"a name outside the rule\n",
        Refusal::BadNumber => b"a coordinate outside the rule\n",
        Refusal::NameTaken => b"a name already in the plan\n",
        Refusal::PlaceTaken => b"a place already in the plan\n",
        // Refusal::Full
        _ => b"entering where 240 sites stand\n",
    }
}

// The line of a hint, told whole or not at all where there is little room.
fn tell_hint<W: Write>(err: &mut W, hint: Hint) {
    let mut line = Cursor::new([0u8; HINT_LINE]);
    let _ = writeln!(&mut line, "place: hint: {hint}");
    let end = (line.position() as usize).min(HINT_LINE);
    tell(err, &line.get_ref()[..end]);
}

// Why this list is refused: for the side, at its first refused line, since it has no sites or no good choice. Each piece is told whatever
// became of the one before.
pub(crate) fn tell_refused<W: Write>(err: &mut W, text: &[u8], how: How)
    requires { IsRefused how.way how.at text.now }
{
    if how.at.is_some_and(|side| !is_side(side)) {
        tell(
            err,
            b"place: a side outside the range: it is a number from 1 to 20000, with no leading zero, or the word free\n",
        );
    } else if let Some(Explanation { line, why, hint }) = explain(text) {
        tell(err, b"place: line ");
        let _ = write!(err, "{line}");
        tell(err, b": ");
        tell(err, rule(why));
        if let Some(hint) = hint {
            tell_hint(err, hint);
        }
    } else if text.is_empty() {
        tell(err, b"place: placing a plan of no sites\n");
    } else {
        tell(err, b"place: no good choice exists at the given side\n");
    }
}
