// What the programs at the desk share: the words behind their names, and telling on standard error.
#![tactic(auto)]

ghost use Rattle.std.specs.Prelude.{◌≤◌, length};

use std::env::FillError;
use std::io::Write;
use std::rt::Env;

// A word, from the front. One that does not fit is longer than every word that a program knows, and counts as none; but its first bytes
// stand there. An array and a length, since a String's memory can run out, and a word cannot fail.
#[derive(Clone, Copy)]
pub struct Word {
    pub bytes: [u8; 8],
    pub len: usize,
    pub ghost counted: { len ≤ length bytes },
}

impl Word {
    ghost use Rattle.std.specs.Prelude.{◌≡◌, get_or};
    ghost use Rattle.desk.specs.Words.{bytes_in};

    // The word with this number, from 1. One that is missing has no bytes.
    pub fn at(rt: &impl Env, i: usize) -> Word {
        let mut bytes = [0u8; 8];
        let len = rt.arg(i, &mut bytes).unwrap_or(0);
        Word { bytes, len }
    }

    pub fn text(&self) -> &[u8]
        ensures { result.now ≡ bytes_in self.now }
    {
        &self.bytes[..self.len]
    }

    // Its first byte, also where it does not fit; 0 where there is none.
    pub fn first(&self) -> u8
        ensures { result ≡ get_or self.now.bytes 0 0 }
    {
        self.bytes[0]
    }
}

// How many words stand behind the program's name, which is the first argument.
pub fn word_count(rt: &impl Env) -> usize {
    (1..usize::MAX)
        .position(|i| matches!(rt.arg(i, &mut [0u8; 8]), Err(FillError::NotPresent)))
        .unwrap_or(usize::MAX - 1)
}

// Says some words on standard error. Where they cannot be written there is nowhere left to say so, nor for a line that a program puts
// together and writes itself.
pub fn tell<W: Write>(err: &mut W, words: &[u8]) {
    let _ = err.write_all(words);
}
