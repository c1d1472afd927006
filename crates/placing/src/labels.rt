// The labels that are placed: one at each site, of one side.
ghost use Rattle.placing.specs.code.Sites.{Held};

use crate::units::{HalfUnits, Place};
use crate::way::Way;

// Labels of a side at some sites, by a way of placing.
#[derive(Clone, Copy)]
pub(crate) struct Labels<'a> {
    pub sites: &'a [Place],
    pub way: Way,
    pub side: HalfUnits,
    // No more sites than a plan holds, all on the plan, and a side that is judged.
    pub ghost held: { Held sites.now side },
}
