// The ways of placing: which corners may be chosen.
#[derive(Clone, Copy, PartialEq, Eq)]
pub enum Way {
    // Corners 1 to 4, none crowded: document 01.
    Usual,
    // Corners 1 and 2, crowded or not, for levels with a wall below each row: document 02, L2.
    Above,
}
