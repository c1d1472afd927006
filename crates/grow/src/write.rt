// The answer on standard output.
ghost use Rattle.std.specs.Prelude.{[], ◌∷◌, ◌++◌, OnOk};
ghost use Rattle.std.specs.Io.KnownBytes.{Appends};
ghost use Rattle.plan.specs.rules.Text.{line_feed};
ghost use Rattle.grow.specs.Asked.{growth_by_words};
ghost use Rattle.grow.specs.Text.{asked_text};

use crate::asked::SixWords;
use crate::explain::tell_refused;
use crate::text::asked_text;
use std::io;
use std::io::Write;

// Writes how far the labels grow that the words give, and a line feed; or the refusal, and on standard error which word is refused and why.
pub(crate) fn write_growth<W: Write, E: Write>(
    out: &mut W,
    err: &mut E,
    words: &SixWords,
) -> io::Result<()>
    ensures { OnOk result (Appends (W.contents out.old) (W.contents out.new)
        (asked_text (growth_by_words words.now.own words.now.other) ++ (line_feed ∷ []))) }
{
    let asked = words.growth();
    let told = asked_text(asked);
    out.write_all(told.text())?;
    out.write_all(b"\n")?;
    if asked.is_err() {
        tell_refused(err, words);
    }
    Ok(())
}
