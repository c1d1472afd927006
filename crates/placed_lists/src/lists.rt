// The lists to place.
ghost use Rattle.std.specs.Prelude.{◌≤◌, ◌<◌};

use placing::units::Place;
use std::array;

// Sites from (x, y) on, each `right` and `up` of the one before.
pub fn line<const N: usize>(x: u32, y: u32, right: u32, up: u32) -> [Place; N]
    requires { (x ≤ 10000) × (y ≤ 10000) × (right ≤ 10000) × (up ≤ 10000) × (N ≤ 240) }
{
    array::from_fn(|i| Place::at(x + right * i as u32, y + up * i as u32))
}

// Sites one unit apart, from the origin on: rows of `width`, each above the one before.
pub fn grid<const N: usize>(width: u32) -> [Place; N]
    requires { (0 < width) × (N ≤ 240) }
{
    array::from_fn(|i| Place::at(i as u32 % width, i as u32 / width))
}

// The list A, B, C.
pub fn column() -> [Place; 3] {
    [Place::at(10, 10), Place::at(10, 14), Place::at(10, 20)]
}

// Three sites in a row, the last further off.
pub fn row() -> [Place; 3] {
    [Place::at(0, 0), Place::at(3, 0), Place::at(10, 0)]
}
