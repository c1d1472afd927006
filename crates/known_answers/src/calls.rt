// The public calls, asked one after another of one plan.
use crate::limits::limit;
use crate::names::accepted_names;
use crate::question::Question;
use crate::quoted::quoted;
use arrayvec::ArrayVec;
use placing::units::Side;
use placing::way::Way;
use plan::limits::TextLimits;
use plan::output::{output, output_at};
use plan::plan::Plan;
use plan::refusal::Refusal;
use std::fmt;
use std::io::Write;

// An answer. So many bytes of it are shown and judged.
pub type Answer = ArrayVec<u8, 512>;

// The plan, and the bytes that were lent last, no more than a full plan's work table.
#[derive(Drop)]
pub struct State {
    plan: Plan,
    lent: ArrayVec<u8, { TextLimits::TABLE }>,
}

// A side as the cases have it, since placing knows no text.
#[derive(Clone, Copy)]
struct Size(Side);

impl fmt::Display for Size {
    fn fmt<W: fmt::Write>(&self, f: &mut fmt::Formatter<W>) -> fmt::Result {
        match self.0 {
            Side::Number(h) => write!(f, "{}", h.0),
            Side::Free => write!(f, "free"),
        }
    }
}

// The answer of a call: what it gives, or the number of its refusal. Either fits.
fn answered<T: fmt::Display + Drop>(answer: Result<T, Refusal>) -> Answer {
    let mut words = Answer::new();
    let _fits = match answer {
        Ok(value) => write!(words, "{value}"),
        Err(why) => write!(words, "refused {}", u8::from(why)),
    };
    words
}

// The answer of a call that gives nothing.
fn accepted(answer: Result<(), Refusal>) -> Answer {
    answered(answer.map(|_| "accepted"))
}

// The whole output for a text, by a way, at the side found or at a given one.
fn whole_output(text: &[u8], way: Way, given: Option<Side>) -> Answer {
    let mut buffer = [0u8; TextLimits::SHEET];
    let n = match given {
        Some(side) => output_at(text, way, side, &mut buffer),
        None => output(text, way, &mut buffer),
    };
    quoted(&buffer[..n])
}

impl State {
    pub fn new() -> State {
        State {
            plan: Plan::start(),
            lent: ArrayVec::new(),
        }
    }

    // Lends so many hyphens, or all that there is room for.
    fn lend(&mut self, bytes: usize) {
        self.lent = ArrayVec::from([b'-'; TextLimits::TABLE]);
        self.lent.truncate(bytes);
    }

    // Reads a list into the plan, which is empty where that is refused.
    fn read(&mut self, text: &[u8]) -> Result<(), Refusal> {
        let (plan, outcome) = Plan::read(text);
        self.plan = plan;
        outcome
    }

    // Places the plan by a way: finds its side and chooses there, with one work table.
    fn place(&mut self, way: Way) -> Result<(), Refusal> {
        let side = self.plan.find(way, &mut self.lent)?;
        self.plan.choose_at(way, side, &mut self.lent)
    }

    // The answer of the call that a question asks.
    fn called(&mut self, question: &Question) -> Answer {
        if let Some(bytes) = question.lends() {
            self.lend(bytes);
        }
        match question {
            Question::Enter { name, x, y } => accepted(self.plan.enter(name, *x, *y)),
            Question::Read(text) => accepted(self.read(text)),
            Question::Find { way, .. } => answered(self.plan.find(*way, &mut self.lent).map(Size)),
            Question::Choose { way, side, .. } => {
                accepted(self.plan.choose_at(*way, *side, &mut self.lent))
            }
            Question::Place { way, .. } => accepted(self.place(*way)),
            Question::Side => answered(self.plan.side().map(Size)),
            Question::Corner(i) => answered(self.plan.corner(*i)),
            Question::Count => answered(Ok(self.plan.count())),
            Question::Write(_) => answered(self.plan.write(&mut self.lent)),
            Question::Output { way, given, text } => whole_output(text, *way, *given),
            Question::Lent => quoted(&self.lent),
            Question::Limit(name) => answered(Ok(limit(name))),
            Question::Names => quoted(&accepted_names()),
        }
    }

    // The answer to a question.
    pub fn answer(&mut self, question: &[u8]) -> Answer {
        match Question::parse(question) {
            Some(question) => self.called(&question),
            None => answered(Ok("no such call")),
        }
    }
}
