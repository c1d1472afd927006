// Text in quotes, as the cases have it.
ghost use Rattle.std.specs.Prelude.{◌≡◌, ◌-◌, ◌++◌, take};
ghost use Rattle.arrayvec.specs.ArrayVec.{array_vec_len};

use arrayvec::ArrayVec;
use std::io::Write;
use std::{iter, slice};

// Appends as many of the bytes as fit.
pub fn put<const N: usize>(out: &mut ArrayVec<u8, N>, bytes: &[u8])
    ensures { out.new.items ≡ out.old.items ++ take (N - array_vec_len out.old) bytes.now }
{
    let _n = out.write(bytes);
}

// A byte as it is shown: a zero, a tab and a line feed are made visible.
fn visible(byte: &u8) -> &[u8] {
    match byte {
        b'\0' => b"\\0",
        b'\t' => b"\\t",
        b'\n' => b"\\n",
        _ => slice::from_ref(byte),
    }
}

// Bytes in quotes, as many as fit. They may be no text, so that this is no Display.
pub fn quoted<const N: usize>(bytes: &[u8]) -> ArrayVec<u8, N> {
    let mut shown = ArrayVec::new();
    put(&mut shown, b"\"");
    for byte in bytes {
        put(&mut shown, visible(byte));
    }
    put(&mut shown, b"\"");
    shown
}

// What the byte behind a backslash stands for.
fn escaped(byte: u8) -> u8 {
    match byte {
        b't' => b'\t',
        b'n' => b'\n',
        b'r' => b'\r',
        b'0' => b'\0',
        _ => byte,
    }
}

// The bytes that a text between quotes stands for, as many as fit.
pub fn unquoted<const N: usize>(text: &[u8]) -> ArrayVec<u8, N> {
    let mut rest = text.iter();
    let bytes = iter::from_fn(|| match *rest.next()? {
        b'\\' => rest.next().map(|byte| escaped(*byte)),
        byte => Some(byte),
    });
    let mut stands_for = ArrayVec::new();
    // There is room for all that are taken.
    let _fits = stands_for.extend(bytes.take(N));
    stands_for
}
