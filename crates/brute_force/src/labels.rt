// The labels of a list.
use crate::sites::{MOST_SITES, Place};
use arrayvec::ArrayVec;

// The place of a site and the corner of its label: a number, since the rules number the corners, 1 to 4, and order choices by them.
#[derive(Clone, Copy, Default)]
pub struct Label {
    pub place: Place,
    pub corner: u8,
}

impl Label {
    // Corners 1 and 4 put the label right of its site, 2 and 3 left.
    pub fn goes_right(self) -> bool {
        matches!(self.corner, 1 | 4)
    }

    // Corners 1 and 2 put the label up of its site, 3 and 4 down.
    pub fn goes_up(self) -> bool {
        matches!(self.corner, 1 | 2)
    }
}

// The labels of a list.
pub type Labels = ArrayVec<Label, MOST_SITES>;

// The labels of these sites at these corners, of the first seven sites where there are more.
pub fn labels_of(sites: &[Place], corners: &[u8]) -> Labels {
    let mut labels = ArrayVec::new();
    let _ = labels.extend(
        sites.iter().zip(corners).map(|(place, corner)| Label {
            place: *place,
            corner: *corner,
        }),
    );
    labels
}
