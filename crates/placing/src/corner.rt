// The corners, numbered as quadrants, and each one's two directions. A corner is its number, 1 to 4, since the rules of choices speak of
// numbers (`Good`), and order choices by them (`First`).
ghost use Rattle.std.specs.Prelude.{◌≡◌};
ghost use Rattle.placing.specs.rules.Corner.{up_where, directions_of, Corner};

// Which way a label goes from its site: up the axis (to the right, upwards) or down it.
#[derive(Clone, Copy, PartialEq, Eq)]
pub(crate) enum Direction {
    Up,
    Down,
}

#[derive(Clone, Copy, PartialEq, Eq)]
pub(crate) struct Directions {
    pub x: Direction,
    pub y: Direction,
}

// Up the axis where `up` says so, else down it. No From<bool>: a call says by this name what the test is of.
fn direction_where(up: bool) -> Direction
    ensures { result ≡ up_where up }
{
    if up { Direction::Up } else { Direction::Down }
}

// A corner's two directions, by its number; no From, since it asks for a corner. Corners 1 and 4 go to the right: modulo 4 they are 1 and 0.
// Corners 1 and 2 go upwards.
pub(crate) fn directions_of(corner: u8) -> Directions
    requires { Corner corner }
    ensures { result ≡ directions_of corner }
{
    Directions {
        x: direction_where(corner % 4 <= 1),
        y: direction_where(corner <= 2),
    }
}
