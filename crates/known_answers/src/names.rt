// Which of the 256 names of one byte entering accepts.
use arrayvec::ArrayVec;
use plan::plan::Plan;

fn is_accepted(name: u8) -> bool {
    Plan::start().enter(&[name], 1, 1).is_ok()
}

pub fn accepted_names() -> ArrayVec<u8, 256> {
    let mut names = ArrayVec::new();
    // There is room for all 256.
    let _fits = names.extend((0..=u8::MAX).filter(|name| is_accepted(*name)));
    names
}
