// Square labels for sites: what the documents rule of corners, meeting, crowding, sides and ways. Nothing here knows names or text.
#![tactic(auto)]

pub mod choice;
pub mod corner;
pub mod crowding;
pub mod fresh;
pub mod geometry;
pub mod labels;
pub mod place;
pub mod side;
pub mod sites;
pub mod trial;
pub mod units;
pub mod way;
