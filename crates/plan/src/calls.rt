// The calls of document 01 on a plan, with placing split in two and in two ways as document 02 asks. Refused, a call leaves the plan as it
// came.
ghost use Rattle.std.specs.Prelude.{◌≡◌, ◌≤◌, length};
ghost use Rattle.placing.specs.rules.Units.{most_sites};
ghost use Rattle.placing.specs.rules.Choice.{corner_at};
ghost use Rattle.placing.specs.rules.Answer.{is_side, side_number};
ghost use Rattle.placing.specs.deciding.Answer.{answer_of};
ghost use Rattle.plan.specs.rules.Refusal.{first_refusal, number_by};
ghost use Rattle.plan.specs.rules.List.{places_of};
ghost use Rattle.plan.specs.rules.Calls.{finding_tests, side_tests, corner_tests};
ghost use Rattle.plan.specs.calls.Plan.{sites_in, Valid};
ghost use Rattle.plan.specs.calls.Answers.{entered_in, found_in, table_found, chosen_in, table_chosen, answer_for, side_asked, corner_asked, counted};
ghost use Rattle.plan.specs.calls.Answers.{carried_at, side_carried, corner_carried};
ghost use Rattle.plan.specs.code.Entering.{outcome_of};
ghost use Rattle.plan.specs.Demands.{EnterTold, FindTold, ChooseTold, SideTold, CornerTold};

use crate::name::name_from;
use crate::number::{coordinate_at, place_at};
use crate::plan::{Placement, Plan, SiteRead};
use crate::refusal::Refusal;
use placing::place::{choose_corners, find_side};
use placing::units::{Limits, Side};
use placing::way::Way;

// What keeps `n` sites from being placed with a work table of so many bytes: tests 8, 11.
fn ready(n: usize, bytes: usize) -> Result<(), Refusal>
    requires { n ≤ most_sites }
    ensures { result ≡ outcome_of (first_refusal (finding_tests n bytes)) }
{
    if n == 0 {
        return Err(Refusal::NoSites);
    }
    if bytes < n * n {
        return Err(Refusal::ShortTable);
    }
    Ok(())
}

// Whether a side can be given: a number from 1 to 20,000, or free. No method: that is a rule of these calls, and a Side holds any number.
pub fn is_side(side: Side) -> bool
    ensures { result ≡ is_side side }
{
    match side {
        Side::Number(h) => (Limits::LEAST_SIDE..=Limits::GREATEST_SIDE).contains(&h.0),
        Side::Free => true,
    }
}

impl Plan {
    // Enters one site at the end: tests 2, 3, 7, 4, 5.
    pub fn enter(&mut self, name: &[u8], x: u64, y: u64) -> Result<(), Refusal>
        ensures answer { record { outcome = result; plan = self.new } ≡ entered_in self.old name.now x y }
        ensures told { EnterTold self.old name.now x y (record { outcome = result; plan = self.new }) }
    {
        let place = place_at(coordinate_at(x), coordinate_at(y));
        self.enter_read(SiteRead {
            name: name_from(name),
            place,
        })
    }

    // Finds the greatest side of the plan's sites by a way: tests 8, 11.
    pub fn find(&self, way: Way, table: &mut [u8]) -> Result<Side, Refusal>
        ensures answer { result ≡ found_in self.now way table.old }
        ensures table { table.new ≡ table_found self.now table.old }
        ensures told { FindTold self.now table.old result table.new }
        ensures value { side_carried result
            ≡ carried_at (number_by (finding_tests self.now.count (length table.old))) (side_number (answer_of way (places_of (sites_in self.now))).side) }
    {
        ready(self.count, table.len())?;
        let sites = &self.places[..self.count];
        Ok(find_side(sites, way, table))
    }

    // Chooses the first good choice by a way at a given side: tests 3, 8, 11, 12. The plan is then placed that way at that side.
    pub fn choose_at(&mut self, way: Way, side: Side, table: &mut [u8]) -> Result<(), Refusal>
        ensures answer { record { outcome = result; plan = self.new } ≡ chosen_in self.old way side table.old }
        ensures table { table.new ≡ table_chosen self.old side table.old }
        ensures told { ChooseTold self.old way side table.old (record { outcome = result; plan = self.new }) table.new }
    {
        if !is_side(side) {
            return Err(Refusal::BadNumber);
        }
        ready(self.count, table.len())?;
        let sites = &self.places[..self.count];
        let corners = choose_corners(sites, way, side, table).ok_or(Refusal::NoGoodChoice)?;
        self.placement = Some(Placement { way, side, corners });
        Ok(())
    }

    // The side that the plan is placed at: test 9.
    pub fn side(&self) -> Result<Side, Refusal>
        ensures answer { result ≡ side_asked self.now }
        ensures told { SideTold self.now result }
        ensures value { side_carried result
            ≡ carried_at (number_by (side_tests self.now.placed)) (side_number (answer_for self.now).side) }
    {
        Ok(self.placement.ok_or(Refusal::NotPlaced)?.side)
    }

    // The corner of site number `i`: tests 9, 6.
    pub fn corner(&self, i: usize) -> Result<u8, Refusal>
        ensures answer { result ≡ corner_asked self.now i }
        ensures told { CornerTold self.now i result }
        ensures value { corner_carried result
            ≡ carried_at (number_by (corner_tests self.now.placed self.now.count i)) (corner_at (answer_for self.now).corners i) }
    {
        let placement = self.placement.ok_or(Refusal::NotPlaced)?;
        if i >= self.count {
            return Err(Refusal::NoSuchSite);
        }
        Ok(placement.corners[i])
    }

    // How many sites the plan has.
    pub fn count(&self) -> usize
        ensures answer { result ≡ counted self.now }
        ensures valid { Valid self.now }
    {
        self.count
    }
}
