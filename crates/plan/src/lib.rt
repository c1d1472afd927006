// Names, lists, plans and sheets: the calls of document 01 over what crate `placing` promises.
#![tactic(auto)]

pub mod calls;
pub mod limits;
pub mod list;
pub mod name;
pub mod number;
pub mod output;
pub mod page;
pub mod plan;
pub mod refusal;
pub mod sheet;
