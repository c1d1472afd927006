// The static library for callers in C and Rust: the calls of crate sheet_call under C's calling convention, each with its contract.
// `callers/lemoncanyon.h` declares them.
#![tactic(auto)]

ghost use Rattle.std.specs.Prelude.{◌≡◌};
ghost use Rattle.plan.specs.rules.List.{place_at};
ghost use Rattle.growth.specs.Asked.{growth_asked_number, growth_asked};
ghost use Rattle.sheet_call.specs.Call.{called, called_at, side_of, way_of, at_found, at_given, Told};
ghost use Rattle.sheet_call.specs.Growing.{growth_left, GrowthCalled};

// The length of the list's sheet, which then stands at the front of the buffer; or the number of the refusal, below 18, with the
// buffer as it came. A number that stands for no way is refused before the list is read.
#[unsafe(no_mangle)]
pub extern "C" fn lemoncanyon_sheet(list: &[u8], way: u32, buffer: &mut [u8]) -> usize
    ensures answer { result ≡ (called (way_of way) list.now buffer.old).number }
    ensures buffer { buffer.new ≡ (called (way_of way) list.now buffer.old).buffer }
    ensures told { Told (at_found (way_of way) list.now) buffer.old result buffer.new }
{
    sheet_call::lemoncanyon_sheet(list, way, buffer)
}

// The same at a given side, in half units, or at free: the length of the sheet, or the number of the refusal, below 15. A number that
// stands for no side is refused before the list is read, too.
#[unsafe(no_mangle)]
pub extern "C" fn lemoncanyon_sheet_at(list: &[u8], way: u32, side: u32, buffer: &mut [u8]) -> usize
    ensures answer { result ≡ (called_at (way_of way) (side_of side) list.now buffer.old).number }
    ensures buffer { buffer.new ≡ (called_at (way_of way) (side_of side) list.now buffer.old).buffer }
    ensures told { Told (at_given (way_of way) (side_of side) list.now) buffer.old result buffer.new }
{
    sheet_call::lemoncanyon_sheet_at(list, way, side, buffer)
}

// 0, with how far the two labels grow in `growth`; or the number of the refusal, 3, with `growth` as it came.
#[unsafe(no_mangle)]
pub extern "C" fn lemoncanyon_growth(
    x1: u32,
    y1: u32,
    corner1: u32,
    x2: u32,
    y2: u32,
    corner2: u32,
    growth: &mut u32,
) -> u32
    ensures answer { result ≡ growth_asked_number (growth_asked (place_at x1 y1) corner1 (place_at x2 y2) corner2) }
    ensures growth { growth.new
        ≡ growth_left (growth_asked (place_at x1 y1) corner1 (place_at x2 y2) corner2) growth.old }
    ensures told { GrowthCalled (place_at x1 y1) corner1 (place_at x2 y2) corner2 growth.old result growth.new }
{
    sheet_call::growing::lemoncanyon_growth(x1, y1, corner1, x2, y2, corner2, growth)
}
