// The state from which labels of a side are placed: every corner is open that the way of placing allows at the side.
ghost use Rattle.std.specs.Prelude.{◌≤◌};
ghost use Rattle.placing.specs.rules.Units.{most_sites};
ghost use Rattle.placing.specs.code.Sites.{Judged};
ghost use Rattle.placing.specs.code.Fresh.{OpenByte, FreshState};

use crate::crowding::Crowding;
use crate::units::{HalfUnits, Limits};

// Which corners are open and which is decided, for every site. Four bytes a site say which corners are open, 1 for open, and one byte which
// is decided, or 0: as numbers, since theorems of specs/search speak of them so (`extends`, `walk-solution`), and choosing hands the
// decisions back.
#[derive(Clone, Copy)]
pub(crate) struct State {
    pub opens: [u8; Limits::ALL_CORNERS],
    pub decided: [u8; Limits::SITES],
}

// The byte of a corner with this reach: 1, for open, where the doubled side is within it.
fn is_open(reach: HalfUnits, side: HalfUnits) -> u8
    requires { Judged side }
    ensures { OpenByte reach.0 side.0 result }
{
    u8::from(side.doubled() <= reach)
}

// The state of `n` sites at a side, before anything is decided.
pub(crate) fn fresh_state(crowding: &Crowding, n: usize, side: HalfUnits) -> State
    requires { (n ≤ most_sites) × Judged side }
    ensures { FreshState crowding.now n side result }
{
    let mut opens = [0u8; Limits::ALL_CORNERS];
    // Written by index: of what an adapter of `iter_mut` lends a proof knows nothing afterwards.
    for (at, reach) in crowding.reaches[..Limits::CORNERS * n].iter().enumerate() {
        opens[at] = is_open(HalfUnits(*reach), side);
    }
    let decided = [0u8; Limits::SITES];
    State { opens, decided }
}
