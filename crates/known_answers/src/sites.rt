// Sites to list: number i is SITE-iii at (1000 + i, 1000), iii being i in three digits.
ghost use Rattle.std.specs.Prelude.{◌≡◌, length};

use std::array;

// More sites than a list can have.
const SITES: usize = 270;

// How many bytes a line has.
const LINE: usize = 19;

// How many bytes their lines have.
pub const LINES: usize = LINE * SITES;

// The last decimal digit of a number. By hand, since a text printed into an array has no length that a clause could give.
fn digit(n: usize) -> u8 {
    b'0' + (n % 10) as u8
}

// The line of site number i, below 1,000.
fn line(i: usize) -> [u8; LINE] {
    let [a, b, c] = [digit(i / 100), digit(i / 10), digit(i)];
    [
        b'S', b'I', b'T', b'E', b'-', a, b, c, b'\t', b'1', a, b, c, b'\t', b'1', b'0', b'0', b'0',
        b'\n',
    ]
}

// The lines of these sites, 5,130 bytes.
pub fn lines() -> [u8; LINES]
    ensures { length result ≡ 5130 }
{
    array::from_fn(|at| line(at / LINE)[at % LINE])
}
