// Why the words are refused, on standard error: the first word that is outside the rules, and the rule.
ghost use Rattle.std.specs.Prelude.{◌≤◌};

use crate::asked::{LabelWords, SixWords, number_given};
use desk::tell;
use placing::units::Limits;
use std::io::Write;

const COORDINATE: &[u8] =
    b": a coordinate outside the rule: it is a whole number from 0 to 10000, with no leading zero\n";

const CORNER: &[u8] = b": a corner not 1 to 4\n";

// The number of the first word of a label that is outside the rules, and the rule, where there is one. So many words stand before the
// label's.
fn first_refused(before: usize, label: &LabelWords) -> Option<(usize, &'static [u8])>
    requires { before ≤ 3 }
{
    if number_given(&label.x) > Limits::COORDINATE {
        return Some((before + 1, COORDINATE));
    }
    if number_given(&label.y) > Limits::COORDINATE {
        return Some((before + 2, COORDINATE));
    }
    if !(1..=Limits::CORNERS as u32).contains(&number_given(&label.corner)) {
        return Some((before + 3, CORNER));
    }
    None
}

pub(crate) fn tell_refused<W: Write>(err: &mut W, words: &SixWords) {
    let refused = first_refused(0, &words.own).or_else(|| first_refused(3, &words.other));
    if let Some((word, rule)) = refused {
        tell(err, b"grow: word ");
        let _ = write!(err, "{word}");
        tell(err, rule);
    }
}
