// Reading a list: one site a line, name, x, y, parted by one tab each.
ghost use Rattle.std.specs.Prelude.{◌≡◌, ◌≤◌, ◌<◌, length};
ghost use Rattle.plan.specs.rules.Text.{fields_of};
ghost use Rattle.plan.specs.calls.Answers.{started, read_from};
ghost use Rattle.plan.specs.Demands.{ReadTold, StopTold};
ghost use Rattle.plan.specs.code.Line.{LineEnds, LineReads, LineEntered};
ghost use Rattle.plan.specs.code.Reading.{LinesReads};

use crate::limits::TextLimits;
use crate::name::name_from;
use crate::number::{coordinate_from, place_at};
use crate::plan::{Plan, SiteRead};
use crate::refusal::Refusal;

// The line at which reading a list stops: its number, counted from 1, where it starts, and why it is refused.
#[derive(Clone, Copy)]
pub struct RefusedLine {
    pub number: usize,
    pub at: usize,
    pub why: Refusal,
}

// The end of the line that starts at `at`: a line feed behind at most the bytes of a line.
fn line_end(text: &[u8], at: usize) -> Option<usize>
    requires { at ≤ length text.now }
    ensures { LineEnds text.now at result }
{
    let mut bytes = text[at..].iter().take(TextLimits::LINE + 1);
    let n = bytes.position(|b| *b == b'\n')?;
    Some(at + n)
}

// What a line writes, without its line feed, if it has three fields.
fn read_line(line: &[u8]) -> Option<SiteRead>
    ensures { LineReads (fields_of line.now) result }
{
    let mut fields = line.split(|b| *b == b'\t');
    let name = fields.next()?;
    let x = fields.next()?;
    let y = fields.next()?;
    if fields.next().is_some() {
        return None;
    }
    Some(SiteRead {
        name: name_from(name),
        place: place_at(coordinate_from(x), coordinate_from(y)),
    })
}

impl Plan {
    // Enters the site of the line that starts at `at`, and gives the line's end: test 1, then those of entering.
    fn enter_line(&mut self, text: &[u8], at: usize) -> Result<usize, Refusal>
        requires { at < length text.now }
        ensures { LineEntered text.now at self.old result self.new }
    {
        let end = line_end(text, at).ok_or(Refusal::BadLine)?;
        let site = read_line(&text[at..end]).ok_or(Refusal::BadLine)?;
        self.enter_read(site)?;
        Ok(end)
    }

    // Reads line after line into an empty plan, up to the first refused line or the text's end.
    fn read_lines(&mut self, text: &[u8]) -> Result<(), RefusedLine>
        requires { self.old ≡ started }
        ensures { LinesReads text.now result self.new }
    {
        let mut at = 0;
        // The step is the length of a line, so this is no `for`.
        while at < text.len() {
            let number = self.count() + 1;
            match self.enter_line(text, at) {
                Ok(end) => at = end + 1,
                Err(why) => return Err(RefusedLine { number, at, why }),
            }
        }
        Ok(())
    }

    // Reads a whole list into a plan of its own, or refuses it at its first refused line; the plan is then empty.
    pub fn read(text: &[u8]) -> (Plan, Result<(), Refusal>)
        ensures answer { record { outcome = result.1; plan = result.0 } ≡ read_from text.now }
        ensures told { ReadTold text.now (record { outcome = result.1; plan = result.0 }) }
    {
        let mut plan = Plan::start();
        match plan.read_lines(text) {
            Ok(()) => (plan, Ok(())),
            Err(line) => (Plan::start(), Err(line.why)),
        }
    }
}

// The line at which `read` stops, if it stops at one.
pub fn refused_line(text: &[u8]) -> Option<RefusedLine>
    ensures { StopTold text.now result }
{
    let mut plan = Plan::start();
    plan.read_lines(text).err()
}
