// How far two labels grow: x, y and corner of one, then of the other, as six words. The number of half units, `never` or the refusal on
// standard output.
#![tactic(auto)]

mod asked;
mod explain;
mod text;
mod usage;
mod write;

use crate::asked::SixWords;
use crate::usage::tell_usage;
use crate::write::write_growth;
use desk::{tell, word_count};

fn main(rt: HostRuntime) {
    if word_count(&rt) != 6 {
        tell_usage(&mut rt.stderr());
        return;
    }
    let words = SixWords::given(&rt);
    if write_growth(&mut rt.stdout(), &mut rt.stderr(), &words).is_err() {
        tell(
            &mut rt.stderr(),
            b"grow: standard output cannot be written\n",
        );
    }
}
