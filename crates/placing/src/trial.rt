// A trial decides a corner of one site and carries on: a decided site closes the corners of others that its label meets, and
// a site left with one corner is decided too. A byte of the lent table marks a site whose decision has been carried out: the marks are
// bytes, since the table is lent as bytes (find_side, clause table). A trial keeps a copy of the state as it came, to put back where it
// fails; of the state alone, so that state and marks are handed on side by side.
ghost use Rattle.std.specs.Prelude.{◌≡◌, ℕ, ◌≤◌, ◌<◌, IsTrue, ◌↔◌, length, set};
ghost use Rattle.placing.specs.rules.Units.{most_sites, site_at, OnPlan};
ghost use Rattle.placing.specs.rules.Corner.{Corner, directions_of};
ghost use Rattle.placing.specs.search.Rows.{row_of};
ghost use Rattle.placing.specs.deciding.Decides.{Decides};
ghost use Rattle.placing.specs.search.State.{Every, Only};
ghost use Rattle.placing.specs.code.Labels.{problem_of};
ghost use Rattle.placing.specs.code.Asks.{MayCarryTo, MayCarryCorner, MayCarryOut, MayLook, MayCarryOn, MayTry};
ghost use Rattle.placing.specs.code.Steps.{one_more, LeftIs, TakenCorner, ClosedCorner, label_at, Clash, CarriedThere, CarriedOut};
ghost use Rattle.placing.specs.code.Steps.{Waits, FirstWaiting, mark_of, Marked, CarriedOn, Tried};

use crate::corner::{Directions, directions_of};
use crate::fresh::State;
use crate::geometry::{Label, distance};
use crate::labels::Labels;
use crate::sites::index_of;
use crate::units::{Limits, Place};
use crate::way::Way;

// Which corners of a site are open: nothing, one, or more.
#[derive(Clone, Copy)]
pub(crate) enum Left {
    Nothing,
    One(u8),
    More,
}

// What is left with one open corner more.
fn one_more(left: Left, c: u8) -> Left
    ensures { result ≡ one_more left c }
{
    match left {
        Left::Nothing => Left::One(c),
        Left::One(_) => Left::More,
        Left::More => Left::More,
    }
}

// The mark of a site by its decided corner.
fn mark_of(decided: u8) -> u8
    ensures { result ≡ mark_of decided }
{
    u8::from(decided != 0)
}

impl State {
    // How many corners of site `j` are open, by its four bytes.
    fn left_of(&self, j: usize) -> Left
        requires { j < most_sites }
        ensures { LeftIs result (row_of self.now.opens j) }
    {
        let own = Limits::CORNERS * j;
        let mut left = Left::Nothing;
        for (e, open) in self.opens[own..own + Limits::CORNERS].iter().enumerate() {
            if *open == 1 {
                left = one_more(left, (e + 1) as u8);
            }
        }
        left
    }

    // Closes corner `c` of site `j`, and decides the site where one corner is left. No where none is.
    fn close_corner(&mut self, j: usize, c: u8) -> bool
        requires { (j < most_sites) × Corner c }
        ensures { ClosedCorner self.old j c result self.new }
    {
        let at = index_of(j, c);
        self.opens[at] = 0;
        let left = self.left_of(j);
        match left {
            Left::Nothing => false,
            Left::One(k) => {
                self.decided[j] = k;
                true
            }
            Left::More => true,
        }
    }

    // Decides corner `c` of site `i`, which closes the site's other corners.
    fn take_corner(&mut self, i: usize, c: u8)
        requires { (i < most_sites) × Corner c }
        ensures { TakenCorner self.old i c self.new }
    {
        let own = Limits::CORNERS * i;
        self.opens[own..own + Limits::CORNERS].fill(0);
        let at = index_of(i, c);
        self.opens[at] = 1;
        self.decided[i] = c;
    }

    // Site `k` waits: it is decided and not marked. A marked site costs one byte read.
    fn waits(&self, marks: &[u8], k: usize) -> bool
        requires { (k < most_sites) × (k < length marks.now) }
        ensures { IsTrue result ↔ Waits self.now marks.now k }
    {
        marks[k] != 1 && self.decided[k] != 0
    }

    // The first of the sites with a mark that waits. Below `from` none waits.
    fn first_waiting(&self, marks: &[u8], from: usize) -> Option<usize>
        requires { MayLook self.now marks.now from }
        ensures { FirstWaiting self.now marks.now (length marks.now) result }
    {
        (from..marks.len()).find(|k| self.waits(marks, *k))
    }

    // Writes the marks: that of each decided site, and of no other. By index: of what an adapter of `iter_mut` lends a
    // proof knows nothing afterwards.
    fn mark(&self, marks: &mut [u8])
        requires { length marks.old ≤ most_sites }
        ensures { Marked self.now (length marks.old) marks.new }
    {
        for (j, decided) in self.decided[..marks.len()].iter().enumerate() {
            marks[j] = mark_of(*decided);
        }
    }
}

impl Labels<'_> {
    // The label of site `k`, `own`, clashes with the one of site `j` in these directions: they are two sites, and the side exceeds how far
    // the two labels grow. Most sites lie too far away along x, so that is asked first.
    fn clash(&self, k: usize, own: Label, j: usize, toward: Directions) -> bool
        requires { OnPlan own.site × (j < length self.now.sites.now) }
        ensures { (c e : ℕ) → own ≡ label_at (site_at self.now.sites.now k) c → toward ≡ directions_of e
            → Decides result (Clash self.now k c j e) }
    {
        let s = own.site;
        let Place { x, y } = self.sites[j];
        if self.side.doubled() <= distance(s.x, x) {
            return false;
        }
        let other = Label {
            site: Place { x, y },
            toward,
        };
        if self.side.exceeds(own.growth(other)) {
            return j != k;
        }
        false
    }

    // Carries the decision of site `k`, whose label is `own`, to corner `e` of site `j`, with that corner's directions. Site `k` itself
    // stays as it is.
    fn carry_to(
        &self,
        state: &mut State,
        k: usize,
        own: Label,
        j: usize,
        e: u8,
        toward: Directions,
    ) -> bool
        requires { MayCarryTo self.now state.old k own j e toward }
        ensures { CarriedThere (problem_of self.now) (Only e) state.old k j result state.new }
    {
        let at = index_of(j, e);
        if state.opens[at] == 1 && self.clash(k, own, j, toward) {
            return state.close_corner(j, e);
        }
        true
    }

    // Carries the decision of site `k` to corner `e` of all others. No where one is left with no corner. It closes no corner of a site
    // below `from`.
    fn carry_corner(&self, state: &mut State, k: usize, e: u8, from: usize) -> bool
        requires { MayCarryCorner self.now state.old k e from }
        ensures { CarriedOut (problem_of self.now) (Only e) state.old k result state.new }
    {
        // A copy, so that the side and where the sites stand are read once and not for each site.
        let labels = *self;
        let own = Label::at(labels.sites[k], state.decided[k]);
        let toward = directions_of(e);
        // A loop and no `all`: of the state that a closure writes a proof knows nothing afterwards.
        for j in from..labels.sites.len() {
            if !labels.carry_to(state, k, own, j, e, toward) {
                return false;
            }
        }
        true
    }

    // Carries the decision of site `k` to all others. Uncrowded labels meet at equal corners only; above the spot, both corners are looked
    // at.
    fn carry_out(&self, state: &mut State, k: usize, from: usize) -> bool
        requires { MayCarryOut self.now state.old k from }
        ensures { CarriedOut (problem_of self.now) Every state.old k result state.new }
    {
        let c = state.decided[k];
        // Two ways of an enum: as closures they would be no plainer.
        match self.way {
            Way::Usual => self.carry_corner(state, k, c, from),
            Way::Above => {
                if !self.carry_corner(state, k, 1, from) {
                    return false;
                }
                self.carry_corner(state, k, 2, from)
            }
        }
    }

    // Marks site `k` and carries its decision out. No where a site is left with no corner.
    fn mark_and_carry(&self, state: &mut State, marks: &mut [u8], k: usize, from: usize) -> bool
        requires { MayCarryOut self.now state.old k from × (length marks.old ≡ length self.now.sites.now) }
        ensures carried { CarriedOut (problem_of self.now) Every state.old k result state.new }
        ensures marked { marks.new ≡ set marks.old k 1 }
    {
        marks[k] = 1;
        self.carry_out(state, k, from)
    }

    // Carries out every decision that is not marked, and marks it. No where a site is left with no corner. The sites below `from` are
    // marked.
    fn carry_on(&self, state: &mut State, marks: &mut [u8], from: usize) -> bool
        requires { MayCarryOn self.now state.old marks.old from }
        ensures { CarriedOn (problem_of self.now) state.old result state.new }
    {
        while let Some(k) = state.first_waiting(marks, from) {
            if !self.mark_and_carry(state, marks, k, from) {
                return false;
            }
        }
        true
    }

    // Tries corner `c` of site `i`, with all sites below it decided. No where the trial fails; the state is then put back as it came.
    pub(crate) fn try_corner(&self, state: &mut State, marks: &mut [u8], i: usize, c: u8) -> bool
        requires { MayTry self.now state.old marks.old i c }
        ensures { Tried (problem_of self.now) state.old i c result state.new }
    {
        let before = *state;
        state.mark(marks);
        state.take_corner(i, c);
        if self.carry_on(state, marks, i) {
            return true;
        }
        *state = before;
        false
    }
}
