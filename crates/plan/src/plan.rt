// A plan: the sites of one level in list order and, once it is placed, the way, its side and corners.
ghost use Rattle.std.specs.Prelude.{◌≡◌, [], ◌∷◌, ◌++◌, take};
ghost use Rattle.plan.specs.rules.List.{Listed, entered};
ghost use Rattle.plan.specs.calls.Plan.{unplaced_plan, sites_in, Valid};
ghost use Rattle.plan.specs.calls.Answers.{started, handed};
ghost use Rattle.plan.specs.code.NameRead.{Padded};
ghost use Rattle.plan.specs.code.PlanLaws.{one_more};
ghost use Rattle.plan.specs.code.Taken.{site_of};
ghost use Rattle.plan.specs.code.Entering.{SiteFits, wanted_read, admitted};

use crate::name::Name;
use crate::refusal::Refusal;
use placing::units::{Limits, Place, Side, Units};
use placing::way::Way;
use std::marker::Model;

// How a plan is placed: the way, the side, and the corners in list order, 0 past the last.
#[derive(Clone, Copy)]
pub(crate) struct Placement {
    pub way: Way,
    pub side: Side,
    pub corners: [u8; Limits::SITES],
}

// Slots past the count hold nothing: a name of no bytes and the place 0, 0. Names and places stand apart, since placing takes the places
// as one slice, and in arrays, so that no call can run out of memory.
#[derive(Clone, Copy)]
pub struct Plan {
    pub(crate) count: usize,
    pub(crate) names: [Name; Limits::SITES],
    pub(crate) places: [Place; Limits::SITES],
    pub(crate) placement: Option<Placement>,
}

// A name and a place to be entered, as they were read: none where they are not by the rules.
#[derive(Clone, Copy)]
pub(crate) struct SiteRead {
    pub name: Option<Name>,
    pub place: Option<Place>,
}

// Every plan is one that the calls hand back.
impl Model for Plan {
    ghost use Rattle.plan.specs.calls.Plan.{PlanRecord, Valid};

    ghost Value = { PlanRecord };

    ghost use Rattle.plan.specs.calls.Fields.{plan_of, fields_in, fields-back};

    ghost view = { plan_of };

    ghost invariant = { λ fields. Valid (plan_of fields) };

    ghost inverse = { fields_in };

    ghost inverse_ok = { λ fields valid. fields-back fields };
}

impl Plan {
    // The plan of no sites.
    pub fn start() -> Plan
        ensures { result ≡ started }
    {
        let nowhere = Place {
            x: Units(0),
            y: Units(0),
        };
        Plan {
            count: 0,
            names: [Name::none(); Limits::SITES],
            places: [nowhere; Limits::SITES],
            placement: None,
        }
    }

    // The names of its sites, in list order.
    pub fn names(&self) -> &[Name]
        ensures { result.now ≡ take self.now.count self.now.names }
    {
        &self.names[..self.count]
    }

    // The places of its sites, in list order.
    pub fn places(&self) -> &[Place]
        ensures { result.now ≡ take self.now.count self.now.places }
    {
        &self.places[..self.count]
    }

    // The way that it is placed, and while it is not placed the usual one.
    pub fn way(&self) -> Way
        ensures { result ≡ self.now.way }
    {
        match self.placement {
            Some(placement) => placement.way,
            None => Way::Usual,
        }
    }

    // The name and the place that were read, where they can be entered: tests 2, 3, 7, 4, 5.
    fn admit(&self, site: SiteRead) -> Result<(Name, Place), Refusal>
        requires { SiteFits site }
        ensures answer { result ≡ admitted (sites_in self.now) site }
        ensures valid { Valid self.now }
    {
        let n = self.count;
        let name = site.name.ok_or(Refusal::BadName)?;
        let place = site.place.ok_or(Refusal::BadNumber)?;
        if n >= Limits::SITES {
            return Err(Refusal::Full);
        }
        if self.names[..n].contains(&name) {
            return Err(Refusal::NameTaken);
        }
        if self.places[..n].contains(&place) {
            return Err(Refusal::PlaceTaken);
        }
        Ok((name, place))
    }

    // One site more, at the end. The plan is not placed afterwards.
    pub(crate) fn add(&mut self, name: Name, place: Place)
        requires { Padded name × Listed (sites_in self.old ++ (site_of name place ∷ [])) }
        ensures { self.new ≡ one_more self.old name place }
    {
        self.names[self.count] = name;
        self.places[self.count] = place;
        self.count += 1;
        self.placement = None;
    }

    // One site more, which was read.
    pub(crate) fn enter_read(&mut self, site: SiteRead) -> Result<(), Refusal>
        requires { SiteFits site }
        ensures answer { record { outcome = result; plan = self.new } ≡ handed unplaced_plan self.old (entered (sites_in self.old) (wanted_read site)) }
        ensures valid { Valid self.new }
    {
        let (name, place) = self.admit(site)?;
        self.add(name, place);
        Ok(())
    }
}
