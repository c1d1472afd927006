// For callers in C and Rust: from the bytes of a list to the bytes of its sheet in one call, by a way of placing, at the side found or at
// a given side.
// A third call tells how far two labels grow. `callers/lemoncanyon.h` declares the calls.
#![tactic(auto)]

pub mod growing;

ghost use Rattle.std.specs.Prelude.{◌≡◌};
ghost use Rattle.sheet_call.specs.Call.{called, called_at, side_of, way_of, at_found, at_given, Told};
ghost use Rattle.sheet_call.specs.CallLaws.{as_called, number_written};

use placing::units::{HalfUnits, Side};
use placing::way::Way;
use plan::plan::Plan;
use plan::refusal::Refusal;

// The number that stands for free where a side is given. Sides, ways and refusals are numbers in C.
const FREE: u32 = 4_294_967_295;

// The side that a number stands for.
fn side_of(number: u32) -> Side
    ensures { result ≡ side_of number }
{
    match number {
        FREE => Side::Free,
        _ => Side::Number(HalfUnits(number)),
    }
}

// The numbers that stand for the ways.
const USUAL: u32 = 1;

const ABOVE: u32 = 2;

// The way that a number stands for.
fn way_of(number: u32) -> Option<Way>
    ensures { result ≡ way_of number }
{
    match number {
        USUAL => Some(Way::Usual),
        ABOVE => Some(Way::Above),
        _ => None,
    }
}

// Places a list by the way that a number stands for, and writes its sheet into the buffer.
fn write_sheet(list: &[u8], way: u32, buffer: &mut [u8]) -> Result<usize, Refusal>
    ensures { as_called result buffer.new ≡ called (way_of way) list.now buffer.old }
{
    let given = way_of(way).ok_or(Refusal::BadNumber)?;
    let (plan, placed) = Plan::place_list(list, given);
    placed?;
    plan.write(buffer)
}

// The same at the side that a number stands for. Apart, since they share four lines, and one over an Option of the side is no plainer.
fn write_sheet_at(list: &[u8], way: u32, side: u32, buffer: &mut [u8]) -> Result<usize, Refusal>
    ensures { as_called result buffer.new ≡ called_at (way_of way) (side_of side) list.now buffer.old }
{
    let given = way_of(way).ok_or(Refusal::BadNumber)?;
    let (plan, placed) = Plan::place_list_at(list, given, side_of(side));
    placed?;
    plan.write(buffer)
}

// The length of a sheet that was written, or the number of the refusal.
fn number(written: Result<usize, Refusal>) -> usize
    ensures { result ≡ number_written written }
{
    match written {
        Ok(n) => n,
        Err(why) => usize::from(u8::from(why)),
    }
}

// The length of the list's sheet, which then stands at the front of the buffer; or the number of the refusal, below 18, with the
// buffer as it came. A number that stands for no way is refused before the list is read.
pub fn lemoncanyon_sheet(list: &[u8], way: u32, buffer: &mut [u8]) -> usize
    ensures answer { result ≡ (called (way_of way) list.now buffer.old).number }
    ensures buffer { buffer.new ≡ (called (way_of way) list.now buffer.old).buffer }
    ensures told { Told (at_found (way_of way) list.now) buffer.old result buffer.new }
{
    number(write_sheet(list, way, buffer))
}

// The same at a given side, in half units, or at free: the length of the sheet, or the number of the refusal, below 15. A number that
// stands for no side is refused before the list is read, too.
pub fn lemoncanyon_sheet_at(list: &[u8], way: u32, side: u32, buffer: &mut [u8]) -> usize
    ensures answer { result ≡ (called_at (way_of way) (side_of side) list.now buffer.old).number }
    ensures buffer { buffer.new ≡ (called_at (way_of way) (side_of side) list.now buffer.old).buffer }
    ensures told { Told (at_given (way_of way) (side_of side) list.now) buffer.old result buffer.new }
{
    number(write_sheet_at(list, way, side, buffer))
}
