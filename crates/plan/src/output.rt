// From a list to the bytes that the placing program writes, by a way of placing, at the side found and at a given side.
ghost use Rattle.std.specs.Prelude.{◌≡◌, length, take};
ghost use Rattle.plan.specs.rules.Refusal.{number_of};
ghost use Rattle.plan.specs.rules.Sheet.{refusal_line};
ghost use Rattle.plan.specs.rules.Calls.{filled_with};
ghost use Rattle.plan.specs.deciding.Output.{output_of, output_at};
ghost use Rattle.plan.specs.calls.Answers.{list_placed, list_placed_at};
ghost use Rattle.plan.specs.code.Filling.{MayPut, planned_output};
ghost use Rattle.plan.specs.Demands.{ListTold, ListToldAt, Answered, AnsweredAt};

use crate::calls::is_side;
use crate::limits::TextLimits;
use crate::page::Page;
use crate::plan::Plan;
use crate::refusal::Refusal;
use placing::units::Side;
use placing::way::Way;

// The line of a refusal: the word refused, a tab, the number and a line feed.
fn refusal_page(why: Refusal) -> Page
    ensures { result ≡ refusal_line (number_of why) }
{
    let mut page = Page::new();
    page.put(b"refused\t");
    page.number(u32::from(u8::from(why)));
    page.byte(b'\n');
    page
}

// The sheet of a plan that was placed, or the line of the refusal.
fn planned_page(outcome: Result<(), Refusal>, plan: &Plan) -> Page
    requires { MayPut (record { outcome = outcome; plan = plan.now }) }
    ensures { result ≡ planned_output (record { outcome = outcome; plan = plan.now }) }
{
    match outcome {
        Ok(()) => plan.compose(),
        Err(why) => refusal_page(why),
    }
}

// Puts that at the front of the array, and gives its length.
fn put_planned(
    outcome: Result<(), Refusal>,
    plan: &Plan,
    out: &mut [u8; TextLimits::SHEET],
) -> usize
    requires { MayPut (record { outcome = outcome; plan = plan.now }) }
    ensures length { result ≡ length (planned_output (record { outcome = outcome; plan = plan.now })) }
    ensures buffer { out.new ≡ filled_with (planned_output (record { outcome = outcome; plan = plan.now })) out.old }
{
    let page = planned_page(outcome, plan);
    let text = page.text();
    out[..text.len()].copy_from_slice(text);
    text.len()
}

impl Plan {
    // The plan of a list, placed by a way at the side found; where the list is refused or has no sites, an empty plan. It lends both calls a
    // work table of its own. This and `place_list_at` are two: they refuse in another order, and each has its own clause `told`.
    pub fn place_list(text: &[u8], way: Way) -> (Plan, Result<(), Refusal>)
        ensures answer { record { outcome = result.1; plan = result.0 } ≡ list_placed way text.now }
        ensures told { ListTold way text.now (record { outcome = result.1; plan = result.0 }) }
    {
        let (mut plan, read) = Plan::read(text);
        if read.is_err() {
            return (plan, read);
        }
        let mut table = [0u8; TextLimits::TABLE];
        match plan.find(way, &mut table) {
            Ok(side) => {
                let placed = plan.choose_at(way, side, &mut table);
                (plan, placed)
            }
            Err(why) => (plan, Err(why)),
        }
    }

    // The plan of a list, placed by a way at a given side; an empty plan where that is refused.
    pub fn place_list_at(text: &[u8], way: Way, side: Side) -> (Plan, Result<(), Refusal>)
        ensures answer { record { outcome = result.1; plan = result.0 } ≡ list_placed_at way side text.now }
        ensures told { ListToldAt way side text.now (record { outcome = result.1; plan = result.0 }) }
    {
        if !is_side(side) {
            return (Plan::start(), Err(Refusal::BadNumber));
        }
        let (mut plan, listed) = Plan::read(text);
        if listed.is_err() {
            return (plan, listed);
        }
        let mut work_table = [0u8; TextLimits::TABLE];
        match plan.choose_at(way, side, &mut work_table) {
            Ok(()) => (plan, Ok(())),
            Err(why) => (Plan::start(), Err(why)),
        }
    }
}

// The output for a list by a way: its sheet, or the line of its refusal, and its length. The array has room for every sheet.
pub fn output(text: &[u8], way: Way, buffer: &mut [u8; TextLimits::SHEET]) -> usize
    ensures length { result ≡ length (output_of way text.now) }
    ensures buffer { buffer.new ≡ filled_with (output_of way text.now) buffer.old }
    ensures answered { Answered way text.now (take result buffer.new) }
{
    let (plan, placed) = Plan::place_list(text, way);
    put_planned(placed, &plan, buffer)
}

// The output for a list by a way at a given side. Two functions as `place_list` and `place_list_at` are, with a clause `answered` each.
pub fn output_at(text: &[u8], way: Way, side: Side, buffer: &mut [u8; TextLimits::SHEET]) -> usize
    ensures length { result ≡ length (output_at way side text.now) }
    ensures buffer { buffer.new ≡ filled_with (output_at way side text.now) buffer.old }
    ensures answered { AnsweredAt way side text.now (take result buffer.new) }
{
    let (plan, placed) = Plan::place_list_at(text, way, side);
    put_planned(placed, &plan, buffer)
}
