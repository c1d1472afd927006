// Text that stands in an array, as much of it as there is room for.
use arrayvec::ArrayString;
use std::fmt::{self, Write};

// How many bytes a list of seven sites fits into: a line takes at most 14.
pub const LIST_BYTES: usize = 98;

// How many bytes a sheet of seven sites fits into: its first line takes at most 11, each other 16.
pub const SHEET_BYTES: usize = 123;

// How many bytes the word of a side fits into.
pub const WORD_BYTES: usize = 5;

// What is printed for this.
pub fn text_of<const N: usize>(printed: &impl fmt::Display) -> ArrayString<N> {
    let mut text = ArrayString::new();
    let _ = write!(text, "{printed}");
    text
}
