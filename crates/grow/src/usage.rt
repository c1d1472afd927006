// What the program does, for whoever starts it with other than six words.
use desk::tell;
use std::io::Write;

const USAGE: [&[u8]; 8] = [
    b"usage: grow X Y CORNER X Y CORNER\n",
    b"Tells how far two labels of a car park level grow: the greatest side, in half\n",
    b"units, at which the label at CORNER of the site X Y and the label at the second\n",
    b"CORNER of the second site do not meet; or the word never, where they meet at no\n",
    b"side. One place given twice gives 0. X and Y are whole units from 0 to 10000; a\n",
    b"corner is 1 right and up, 2 left and up, 3 left and down, 4 right and down. What\n",
    b"is outside the rules gives the word refused and the number 3, and standard error\n",
    b"says why. Nothing was written.\n",
];

pub(crate) fn tell_usage<W: Write>(err: &mut W) {
    for line in &USAGE {
        tell(err, line);
    }
}
