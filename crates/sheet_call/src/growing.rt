// For callers in C and Rust: how far two labels grow.
ghost use Rattle.std.specs.Prelude.{◌≡◌};
ghost use Rattle.plan.specs.rules.List.{place_at};
ghost use Rattle.growth.specs.Asked.{growth_asked_number, growth_asked};
ghost use Rattle.sheet_call.specs.Growing.{number_for, growth_left, GrowthCalled};

use growth::how_far;
use placing::units::{Growth, Place};

// The number that stands for never in C.
const NEVER: u32 = 4_294_967_295;

// The number that stands for a growth.
fn number_for(growth: Growth) -> u32
    ensures { result ≡ number_for growth }
{
    match growth {
        Growth::UpTo(most) => most.0,
        Growth::Never => NEVER,
    }
}

// 0, with how far the two labels grow in `growth`; or the number of the refusal, 3, with `growth` as it came.
pub fn lemoncanyon_growth(
    x1: u32,
    y1: u32,
    corner1: u32,
    x2: u32,
    y2: u32,
    corner2: u32,
    growth: &mut u32,
) -> u32
    ensures answer { result ≡ growth_asked_number (growth_asked (place_at x1 y1) corner1 (place_at x2 y2) corner2) }
    ensures growth { growth.new
        ≡ growth_left (growth_asked (place_at x1 y1) corner1 (place_at x2 y2) corner2) growth.old }
    ensures told { GrowthCalled (place_at x1 y1) corner1 (place_at x2 y2) corner2 growth.old result growth.new }
{
    match how_far(Place::at(x1, y1), corner1, Place::at(x2, y2), corner2) {
        Ok(told) => {
            *growth = number_for(told);
            0
        }
        Err(why) => u32::from(u8::from(why)),
    }
}
