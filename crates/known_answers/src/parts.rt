// Parts of a line.
ghost use Rattle.std.specs.Prelude.{◌≡◌, ◌≤◌, ◌+◌, ◌∷◌, ◌++◌, length, take, drop, IfSome};

// What stands before and what behind the first such byte of a text; none where it has no such byte.
pub fn split_once(text: &[u8], byte: u8) -> Option<(&[u8], &[u8])>
    ensures { IfSome result (λ parts. text.now ≡ parts.0.now ++ byte ∷ parts.1.now) }
{
    let at = text.iter().position(|b| *b == byte)?;
    Some((&text[..at], &text[at + 1..]))
}

// The same, where all of a text with no such byte stands before it.
pub fn split_or_all(text: &[u8], byte: u8) -> (&[u8], &[u8])
    ensures front { result.0.now ≡ take (length result.0.now) text.now }
    ensures fits { length result.0.now + length result.1.now ≤ length text.now }
{
    split_once(text, byte).unwrap_or((text, &[]))
}

// The text without its first byte.
pub fn behind_one(text: &[u8]) -> &[u8]
    ensures { result.now ≡ drop 1 text.now }
{
    text.get(1..).unwrap_or(&[])
}

// A number stops growing above this one. Numbers of the cases have at most ten digits.
const ENOUGH: u64 = 9_999_999_999;

// The number that a text starts with, 0 where there is none.
fn number_in(text: &[u8]) -> u64 {
    text.iter()
        .map_while(|b| char::from(*b).to_digit(10))
        .fold(0, |number, digit| {
            if number > ENOUGH {
                number
            } else {
                number * 10 + u64::from(digit)
            }
        })
}

// The number that a text starts with and the one behind its first space; none where it has more than digits and spaces.
pub fn numbers_in(text: &[u8]) -> Option<[u64; 2]> {
    if !text.iter().all(|b| matches!(b, b' ' | b'0'..=b'9')) {
        return None;
    }
    let (first, second) = split_or_all(text, b' ');
    Some([number_in(first), number_in(second)])
}
