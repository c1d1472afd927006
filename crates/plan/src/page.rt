// Text put together from its front, in an array with room for every sheet.
ghost use Rattle.std.specs.Prelude.{◌≡◌, ◌+◌, ◌≤◌, ◌<◌, [], ◌∷◌, ◌++◌, length};
ghost use Rattle.plan.specs.rules.Text.{decimal};
ghost use Rattle.plan.specs.calls.Lengths.{longest_sheet};

use crate::limits::TextLimits;
use std::marker::Model;

#[derive(Drop)]
pub struct Page {
    bytes: [u8; TextLimits::SHEET],
    len: usize,
}

// A page is the text that was put so far. No ArrayVec of the kit, since the product has no crate but its own and the libraries of Rust,
// and a page's value is its text alone.
impl Model for Page {
    ghost use Rattle.std.specs.Prelude.{List, ℕ, ◌≤◌, take};
    ghost use Rattle.plan.specs.calls.Lengths.{longest_sheet};

    ghost Value = { List ℕ };

    ghost view = { λ page. take page.len page.bytes };

    ghost invariant = { λ page. page.len ≤ longest_sheet };
}

impl Page {
    // No text.
    pub fn new() -> Page
        ensures { result ≡ [] }
    {
        Page {
            bytes: [0u8; TextLimits::SHEET],
            len: 0,
        }
    }

    // One byte more.
    pub fn byte(&mut self, b: u8)
        requires { length self.old < longest_sheet }
        ensures text { self.new ≡ self.old ++ (b ∷ []) }
        ensures len { length self.new ≡ length self.old + 1 }
    {
        self.bytes[self.len] = b;
        self.len += 1;
    }

    // The bytes of a text more.
    pub fn put(&mut self, text: &[u8])
        requires { length self.old + length text.now ≤ longest_sheet }
        ensures text { self.new ≡ self.old ++ text.now }
        ensures len { length self.new ≡ length self.old + length text.now }
    {
        let end = self.len + text.len();
        self.bytes[self.len..end].copy_from_slice(text);
        self.len = end;
    }

    // A number more, in decimal: the digits of its tenth part, then its last digit. By hand, since a page cannot fail, and `write!` hands
    // back a Result (edit number_ends_in_zero).
    pub fn number(&mut self, n: u32)
        requires { length self.old + length (decimal n) ≤ longest_sheet }
        ensures text { self.new ≡ self.old ++ decimal n }
        ensures len { length self.new ≡ length self.old + length (decimal n) }
    {
        if n < 10 {
            self.byte(b'0' + n as u8);
            return;
        }
        self.number(n / 10);
        self.byte(b'0' + (n % 10) as u8);
    }

    // The text.
    pub fn text(&self) -> &[u8]
        ensures text { result.now ≡ self.now }
        ensures fits { length result.now ≤ longest_sheet }
    {
        &self.bytes[..self.len]
    }
}
