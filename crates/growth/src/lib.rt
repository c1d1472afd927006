// How far two labels grow, asked with any numbers: document 02, L3.
#![tactic(auto)]

ghost use Rattle.std.specs.Prelude.{◌≡◌};
ghost use Rattle.placing.specs.rules.Growth.{growth_number};
ghost use Rattle.placing.specs.deciding.Growth.{growth_of};
ghost use Rattle.plan.specs.rules.Refusal.{number_by};
ghost use Rattle.plan.specs.calls.Answers.{carried_at};
ghost use Rattle.growth.specs.Asked.{outside_range, no_label, growth_tests, growth_asked_number, growth_carried, growth_asked, GrowthTold};

use placing::geometry::growth_of;
use placing::units::{Growth, Limits, Place};
use plan::refusal::Refusal;

// The place is outside the range.
fn outside_range(s: Place) -> bool
    ensures { result ≡ outside_range s }
{
    !s.is_on_plan()
}

// There is no label at corner `c` of `s` to be asked about: the place is outside the range, or the corner is not 1 to 4.
fn no_label(s: Place, c: u32) -> bool
    ensures { result ≡ no_label s c }
{
    outside_range(s) || c < 1 || c > Limits::CORNERS as u32
}

// How far the labels at corner `c` of `s` and at corner `e` of `t` grow: test 3.
pub fn how_far(s: Place, c: u32, t: Place, e: u32) -> Result<Growth, Refusal>
    ensures answer { result ≡ growth_asked s c t e }
    ensures number { growth_asked_number result ≡ number_by (growth_tests s c t e) }
    ensures told { GrowthTold s c t e result }
    ensures value { growth_carried result ≡ carried_at (number_by (growth_tests s c t e)) (growth_number (growth_of s c t e)) }
{
    if no_label(s, c) || no_label(t, e) {
        return Err(Refusal::BadNumber);
    }
    Ok(growth_of(s, c as u8, t, e as u8))
}
