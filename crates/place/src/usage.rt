// What the program does, for whoever starts it with other words than above and a side.
use desk::tell;
use std::io::Write;

const USAGE: &[u8] = b"usage: place [above] [SIDE] < LIST > SHEET\n\
    Places a square label for each site of a car park level. Without SIDE the labels\n\
    get the greatest side; with SIDE, a number of half units from 1 to 20000 or the\n\
    word free, they get that one, where a good choice of corners exists. With the\n\
    word above every label lies above its spot, at corner 1 or 2.\n\
    LIST has one site a line: name, x, y, with one tab between them, and a line feed\n\
    at the end of each line. A name is 1 to 8 of A to Z, 0 to 9 and hyphen; x and y\n\
    are whole units from 0 to 10000. At most 240 sites; no name and no place twice.\n\
    SHEET has the word side and the side in half units, or free, and then the list\n\
    with a corner for each site: 1 right and up, 2 left and up, 3 left and down, 4\n\
    right and down. What is outside the rules gives the word refused and a number,\n\
    and standard error says why. Nothing was read or written.\n";

// A line at a time, so that lines come also where there is no room for all.
pub(crate) fn tell_usage<W: Write>(err: &mut W) {
    for line in USAGE.split_inclusive(|b| *b == b'\n') {
        tell(err, line);
    }
}
