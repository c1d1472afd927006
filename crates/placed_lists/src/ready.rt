// Whether a list may be placed: some sites and not too many, coordinates in range, places distinct.
ghost use Rattle.std.specs.Prelude.{◌<◌, length, IsTrue, EachIndex};
ghost use Rattle.placed_lists.specs.Ready.{Fresh, Ready};

use placing::units::{Limits, Place};

// Site `i` is in range, and no site before it is at its place.
fn fresh(sites: &[Place], i: usize) -> bool
    requires { i < length sites.now }
    ensures { IsTrue result → Fresh sites.now i }
{
    sites[i].is_on_plan() && !sites[..i].contains(&sites[i])
}

// Each site is in range, at a place where none before it is.
fn all_fresh(sites: &[Place]) -> bool
    ensures { IsTrue result → EachIndex sites.now (λ i. Fresh sites.now i) }
{
    (0..sites.len()).all(|i| fresh(sites, i))
}

// These sites may be placed.
pub fn ready(sites: &[Place]) -> bool
    ensures { IsTrue result → Ready sites.now }
{
    !sites.is_empty() && sites.len() <= Limits::SITES && all_fresh(sites)
}
