// Numbers as they are written: coordinates and sides.
ghost use Rattle.std.specs.Prelude.{◌≡◌, [], ◌∷◌, ◌≤◌};
ghost use Rattle.std.proofs.Math.Option.{some};
ghost use Rattle.placing.specs.rules.Answer.{side_number};
ghost use Rattle.placing.specs.rules.Units.{greatest_side};
ghost use Rattle.plan.specs.rules.Text.{number_in, digits_after};
ghost use Rattle.plan.specs.rules.Sheet.{side_in};
ghost use Rattle.plan.specs.calls.Given.{side_by_word, coordinate_read, coordinate_number};
ghost use Rattle.plan.specs.code.NumberRead.{number_read};
ghost use Rattle.plan.specs.code.Coordinate.{place_read};

use placing::units::{HalfUnits, Limits, Place, Side, Units};

// A number as a coordinate.
pub(crate) fn coordinate_at(n: u64) -> Option<Units>
    ensures { result ≡ coordinate_read (some n) }
{
    if n > u64::from(Limits::COORDINATE) {
        return None;
    }
    Some(Units(n as u32))
}

// The place of two coordinates.
pub(crate) fn place_at(x: Option<Units>, y: Option<Units>) -> Option<Place>
    ensures { result ≡ place_read x y }
{
    Some(Place { x: x?, y: y? })
}

// A number with one digit more, where it is a digit and the number stays in range. That `most` is no more than the greatest side is asked of
// three private functions; a type for that would be no plainer.
fn with_digit(value: u32, b: u8, most: u32) -> Option<u32>
    requires { (value ≤ most) × (most ≤ greatest_side) }
    ensures { result ≡ number_read most (digits_after value (b ∷ [])) }
{
    let digit = char::from(b).to_digit(10)?;
    let more = value * 10 + digit;
    (more <= most).then_some(more)
}

// The number that the digits of a text write, up to `most`.
fn digits_from(text: &[u8], most: u32) -> Option<u32>
    requires { most ≤ greatest_side }
    ensures { result ≡ number_read most (digits_after 0 text.now) }
{
    let mut value = 0;
    for b in text {
        value = with_digit(value, *b, most)?;
    }
    Some(value)
}

// The number that a text writes, in decimal digits with no leading zero, up to `most`.
fn number_from(text: &[u8], most: u32) -> Option<u32>
    requires { most ≤ greatest_side }
    ensures { result ≡ number_read most (number_in text.now) }
{
    if text.is_empty() {
        return None;
    }
    if text.len() > 1 && text[0] == b'0' {
        return None;
    }
    digits_from(text, most)
}

// The coordinate that a text writes, in decimal digits with no leading zero.
pub fn coordinate_from(text: &[u8]) -> Option<Units>
    ensures coordinate { result ≡ coordinate_read (number_in text.now) }
    ensures value { coordinate_number result ≡ coordinate_number (coordinate_read (number_in text.now)) }
{
    let n = number_from(text, Limits::COORDINATE)?;
    Some(Units(n))
}

// The side that a word gives. Where it is no side in range that is the number 0, which choosing refuses.
pub fn side_from(text: &[u8]) -> Side
    ensures side { result ≡ side_by_word (side_in text.now) }
    ensures value { side_number result ≡ side_number (side_by_word (side_in text.now)) }
{
    if text == b"free".as_slice() {
        return Side::Free;
    }
    let n = number_from(text, Limits::GREATEST_SIDE).unwrap_or(0);
    Side::Number(HalfUnits(n))
}
