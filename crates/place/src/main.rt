// The placing program: a list on standard input, its sheet or its refusal on standard output; by the way and at the side that its
// arguments give.
#![tactic(auto)]

mod answer;
mod asked;
mod explain;
mod source;
mod usage;

use crate::answer::answer_input;
use crate::asked::asked;
use crate::usage::tell_usage;

fn main(rt: HostRuntime) {
    let Some(how) = asked(&rt) else {
        tell_usage(&mut rt.stderr());
        return;
    };
    answer_input(rt, how);
}
