// How many bytes a text can have.
use crate::name::Name;
use placing::units::Limits;

// The limits of lists and sheets, from those of document 01.
#[derive(Clone, Copy)]
pub struct TextLimits();

impl TextLimits {
    // A line of a list, before its line feed.
    pub const LINE: usize = 20;
    // A line for each site and one more, with their line feeds: these bytes decide every longer text.
    pub const TEXT: usize = (Limits::SITES + 1) * (TextLimits::LINE + 1);
    // A coordinate or a side in decimal digits.
    pub const NUMBER: usize = 5;
    // The first line of a sheet: the word side, a tab, the side, a line feed.
    pub const SIDE_LINE: usize = 4 + 1 + TextLimits::NUMBER + 1;
    // The line of a site: name, x, y and a corner of one digit, each with the tab or line feed behind it.
    pub const SITE_LINE: usize = (Name::LONGEST + 1) + 2 * (TextLimits::NUMBER + 1) + (1 + 1);
    // No sheet is longer.
    pub const SHEET: usize = TextLimits::SIDE_LINE + Limits::SITES * TextLimits::SITE_LINE;
    // The work table that a full plan needs.
    pub const TABLE: usize = Limits::SITES * Limits::SITES;
}
