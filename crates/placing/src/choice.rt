// Choosing at a side: the walk in list order, in which each undecided site takes the lowest open corner whose trial does not
// fail. What it yields is the first good choice.
ghost use Rattle.std.specs.Prelude.{◌≡◌, ◌++◌, ◌+◌, ◌-◌, ◌≤◌, ◌<◌, length, take, replicate};
ghost use Rattle.placing.specs.rules.Units.{most_sites};
ghost use Rattle.placing.specs.calls.Placing.{choice_as};
ghost use Rattle.placing.specs.deciding.Answer.{first_good};
ghost use Rattle.placing.specs.code.Labels.{problem_of};
ghost use Rattle.placing.specs.code.Asks.{MayWalk, MayDecide, MayChoose, MayChooseAt};
ghost use Rattle.placing.specs.code.Steps.{Tried, WalkedTo};
ghost use Rattle.placing.specs.code.Chosen.{choice_in};

use crate::crowding::Crowding;
use crate::fresh::{State, fresh_state};
use crate::labels::Labels;
use crate::units::{HalfUnits, Limits};

// The corners of the first `n` sites, 0 past them.
fn first_corners(corners: [u8; Limits::SITES], n: usize) -> [u8; Limits::SITES]
    requires { n ≤ most_sites }
    ensures { result ≡ take n corners ++ replicate (most_sites - n) 0 }
{
    let mut first = corners;
    first[n..].fill(0);
    first
}

impl Labels<'_> {
    // Tries corner `e` + 1 of site `i` where it is open. No where it is not, or its trial fails.
    fn try_open(&self, state: &mut State, marks: &mut [u8], i: usize, e: usize) -> bool
        requires { MayDecide self.now state.old marks.old i × (e < 4) }
        ensures { Tried (problem_of self.now) state.old i (e + 1) result state.new }
    {
        let at = 4 * i + e;
        state.opens[at] == 1 && self.try_corner(state, marks, i, (e + 1) as u8)
    }

    // Decides site `i`, where it is not decided yet, by its lowest open corner whose trial does not fail. No where all fail.
    fn choose_corner(&self, state: &mut State, marks: &mut [u8], i: usize) -> bool
        requires { MayWalk self.now state.old marks.old i × (i < length self.now.sites.now) }
        ensures { WalkedTo (problem_of self.now) (i + 1) result state.new }
    {
        if state.decided[i] != 0 {
            return true;
        }
        // A loop and no `any`: of the state that a closure writes a proof knows nothing afterwards.
        for e in 0..Limits::CORNERS {
            if self.try_open(state, marks, i, e) {
                return true;
            }
        }
        false
    }

    // Decides all sites in list order. No where there is no good choice.
    fn walk(&self, state: &mut State, marks: &mut [u8]) -> bool
        requires { MayWalk self.now state.old marks.old 0 }
        ensures { WalkedTo (problem_of self.now) (length self.now.sites.now) result state.new }
    {
        // By number, since what is decided stands in the state; and a loop and no `all`, for the reason in `choose_corner`.
        for i in 0..self.sites.len() {
            if !self.choose_corner(state, marks, i) {
                return false;
            }
        }
        true
    }

    // The first good choice, or none. Past the last site its corners are what the walk left.
    pub(crate) fn choose(
        &self,
        crowding: &Crowding,
        marks: &mut [u8],
    ) -> Option<[u8; Limits::SITES]>
        requires { MayChoose self.now crowding.now marks.old }
        ensures { choice_in (length self.now.sites.now) result
            ≡ first_good self.now.way self.now.side.0 self.now.sites.now }
    {
        let mut state = fresh_state(crowding, self.sites.len(), self.side);
        if self.walk(&mut state, marks) {
            let corners = state.decided;
            Some(corners)
        } else {
            None
        }
    }

    // The first good choice: the corner of each site in list order, 0 past the last. Up to side 1 corner 1 everywhere is good, and the
    // first. Where the top that crowding leaves is below the side there is none.
    pub(crate) fn first_choice(&self, marks: &mut [u8]) -> Option<[u8; Limits::SITES]>
        requires { MayChooseAt self.now marks.old }
        ensures { result ≡ choice_as (first_good self.now.way self.now.side.0 self.now.sites.now) }
    {
        if self.side <= HalfUnits(Limits::LEAST_SIDE) {
            return Some(first_corners([1u8; Limits::SITES], self.sites.len()));
        }
        let crowding = self.crowding();
        if crowding.top < self.side {
            return None;
        }
        let corners = self.choose(&crowding, marks)?;
        Some(first_corners(corners, self.sites.len()))
    }
}
