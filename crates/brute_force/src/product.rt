// The product's output by a way, through list text.
use crate::side::Side;
use crate::sites::{List, Place};
use crate::text::{LIST_BYTES, WORD_BYTES, text_of};
use arrayvec::{ArrayString, ArrayVec};
use placing::way::Way;
use plan::limits::TextLimits;
use plan::number::side_from;
use plan::output::{output, output_at};

// The output for these sites at the side found, or at a given one, which goes by its word.
pub fn output_of(
    sites: &[Place],
    way: Way,
    given: Option<Side>,
) -> ArrayVec<u8, { TextLimits::SHEET }> {
    let list: ArrayString<LIST_BYTES> = text_of(&List(sites));
    let mut buffer = [0u8; TextLimits::SHEET];
    let n = match given {
        Some(side) => {
            let word: ArrayString<WORD_BYTES> = text_of(&side);
            output_at(
                list.as_bytes(),
                way,
                side_from(word.as_bytes()),
                &mut buffer,
            )
        }
        None => output(list.as_bytes(), way, &mut buffer),
    };
    let mut came = ArrayVec::from(buffer);
    came.truncate(n);
    came
}
