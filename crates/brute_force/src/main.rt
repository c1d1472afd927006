// Random small lists, each answered by the product and by enumeration, both ways, at the side found and at given sides. The sheets are
// compared, and the counts printed; then the same with answers that are meant to come out wrong.
#![tactic(auto)]

mod answer;
mod counts;
mod enumerate;
mod given;
mod labels;
mod lists;
mod product;
mod random;
mod side;
mod sites;
mod text;
mod trial;
mod wrong;

use crate::counts::Tally;
use crate::random::Random;
use crate::trial::trial;
use crate::wrong::print_wrong;
use std::io;

const LISTS: u32 = 4_000;

fn main(rt: HostRuntime) -> io::Result<()> {
    let mut random = Random::new();
    let mut tally = Tally::default();
    for _ in 0..LISTS {
        trial(&rt, &mut tally, &mut random)?;
    }
    print!(rt; "{tally}")?;
    print_wrong(&rt)
}
