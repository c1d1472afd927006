// Cases: each is asked, printed as a line and counted.
use crate::calls::State;
use crate::parts::{behind_one, split_once};
use std::io;

// How many cases were asked, and how many came right. A count would stop at the greatest number, so that nothing is asked of it.
#[derive(Clone, Copy, Default)]
struct Tally {
    asked: u64,
    right: u64,
}

impl Tally {
    fn count(&mut self, right: bool) {
        self.asked = self.asked.saturating_add(1);
        self.right = self.right.saturating_add(u64::from(right));
    }
}

// Asks a question, and prints and counts whether its answer is the one that should come.
fn ask(
    rt: &impl Print,
    state: &mut State,
    tally: &mut Tally,
    question: &[u8],
    should: &[u8],
) -> io::Result<()> {
    let came = state.answer(question);
    let right = came.as_slice() == should;
    tally.count(right);
    rt.write_all(question)?;
    print!(rt; "= ")?;
    rt.write_all(&came)?;
    if right {
        return println!(rt; "\tright");
    }
    print!(rt; "\tWRONG, should be ")?;
    rt.write_all(should)?;
    println!(rt)
}

// Asks the question of a line, or prints a line that has none.
fn ask_line(rt: &impl Print, state: &mut State, tally: &mut Tally, line: &[u8]) -> io::Result<()> {
    match split_once(line, b'=') {
        Some((question, behind)) => ask(rt, state, tally, question, behind_one(behind)),
        None => {
            rt.write_all(line)?;
            println!(rt)
        }
    }
}

// Goes through the cases.
pub fn ask_all(rt: &impl Print, cases: &[u8]) -> io::Result<()> {
    let mut state = State::new();
    let mut tally = Tally::default();
    for line in cases.split_inclusive(|b| *b == b'\n') {
        let line = line.strip_suffix(b"\n").unwrap_or(line);
        ask_line(rt, &mut state, &mut tally, line)?;
    }
    println!(rt; "{} cases, {} right", tally.asked, tally.right)
}
