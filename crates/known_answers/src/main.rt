// Known answers: each line of the standard input that has a `=` is a question to the public calls, and behind the `=` stands what the
// answer should be. The program prints each question with the answer that came, and whether it is the one; other lines it prints as
// they are. The questions are asked of one plan, one after another.
#![tactic(auto)]

mod calls;
mod cases;
mod limits;
mod names;
mod parts;
mod question;
mod quoted;
mod sites;

use crate::cases::ask_all;
use std::io;
use std::io::Read;

// So many bytes of the standard input are read; what stands behind them is no case.
const MOST_READ: u64 = 32_768;

fn main(rt: HostRuntime) -> io::Result<()> {
    let mut cases = Vec::new(rt.alloc());
    rt.reader().take(MOST_READ).read_to_end(&mut cases)?;
    ask_all(&rt, &cases)
}
