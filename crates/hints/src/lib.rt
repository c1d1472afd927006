// Where and why a list is refused: the line, the refusal, and a hint where a common cause shows in the bytes of that line.
#![tactic(auto)]

ghost use Rattle.std.specs.Prelude.{◌≡◌, length};
ghost use Rattle.plan.specs.deciding.Reading.{cut_line};
ghost use Rattle.hints.specs.Explained.{Explained};
ghost use Rattle.hints.specs.Hint.{within, has, has_separator, ends_in, starts_with, starts_with_mark, lacks_feed, is_heading};
ghost use Rattle.hints.specs.Hint.{line_of, hint_of};
ghost use Rattle.hints.specs.TestLaws.{shows};

use plan::limits::TextLimits;
use plan::list::refused_line;
use plan::refusal::Refusal;
use std::fmt;

// The causes, in the order in which they are looked for.
#[derive(Clone, Copy, Debug, PartialEq, Eq)]
pub enum Hint {
    ByteOrderMark,
    Empty,
    CarriageReturn,
    NoLineFeed,
    LongLine,
    Heading,
    EndTab,
    Separator,
    LowerCase,
    Point,
}

// The cause in words, and what to do about it.
impl fmt::Display for Hint {
    ghost use Rattle.std.specs.Prelude.{Some};
    ghost use Rattle.hints.specs.Hint.{hint_text};

    ghost output = { λ hint. Some (hint_text hint) };

    fn fmt<W: fmt::Write>(&self, f: &mut fmt::Formatter<W>) -> fmt::Result {
        f.write_str(match self {
            Hint::ByteOrderMark =>
                "it starts with a byte order mark; save the list as plain text without one",
            Hint::Empty => "it is empty; leave no empty lines",
            Hint::CarriageReturn =>
                "it has a carriage return; end each line with a line feed alone",
            Hint::NoLineFeed => "it has no line feed at its end; the last line needs one too",
            Hint::LongLine => "it is over 20 bytes long; a line has a name, x and y alone",
            Hint::Heading => "it has no digit; if it is a heading row, leave it out",
            Hint::EndTab => "it ends in a tab with nothing behind it",
            Hint::Separator =>
                "it has a space, a comma or a semicolon; a list has one tab between two fields and none of these",
            Hint::LowerCase => "it has lower-case letters; the letters of a list are A to Z",
            Hint::Point => "it has a point; names and coordinates have none",
        })
    }
}

// What is told of a refused list: the line at which it is refused, counted from 1, the refusal, and the hint where a cause shows.
#[derive(Clone, Copy)]
pub struct Explanation {
    pub line: usize,
    pub why: Refusal,
    pub hint: Option<Hint>,
}

// The length of a text's first line, without its line feed.
fn line_length(text: &[u8]) -> usize
    ensures { result ≡ length (cut_line text.now).bytes }
{
    text.iter().position(|b| *b == b'\n').unwrap_or(text.len())
}

// Whether a byte is from `low` to `high`. A function, as `ends_in` and `starts_with` are, since it is a test of the rule, with its law.
fn is_within(b: u8, low: u8, high: u8) -> bool
    ensures { result ≡ within low high b }
{
    low <= b && b <= high
}

// Whether some byte is from `low` to `high`.
fn has_byte(bytes: &[u8], low: u8, high: u8) -> bool
    ensures { result ≡ has low high bytes.now }
{
    bytes.iter().any(|b| is_within(*b, low, high))
}

// Whether some byte is a space, a comma or a semicolon.
fn has_separator(bytes: &[u8]) -> bool
    ensures { result ≡ has_separator bytes.now }
{
    has_byte(bytes, b' ', b' ') || has_byte(bytes, b',', b',') || has_byte(bytes, b';', b';')
}

// Whether the last byte is this one.
fn ends_in(bytes: &[u8], last: u8) -> bool
    ensures { result ≡ ends_in last bytes.now }
{
    bytes.ends_with(&[last])
}

// Whether the bytes start with these.
fn starts_with(bytes: &[u8], start: &[u8]) -> bool
    ensures { result ≡ starts_with start.now bytes.now }
{
    bytes.starts_with(start)
}

// Whether the bytes start with a byte order mark: of UTF-8, or of UTF-16 in either order.
fn starts_with_mark(bytes: &[u8]) -> bool
    ensures { result ≡ starts_with_mark bytes.now }
{
    starts_with(bytes, b"\xEF\xBB\xBF")
        || starts_with(bytes, b"\xFF\xFE")
        || starts_with(bytes, b"\xFE\xFF")
}

// Whether a line has no line feed and at most 20 bytes: one that was cut has more.
fn lacks_feed(bytes: &[u8], ended: bool) -> bool
    ensures { result ≡ lacks_feed bytes.now ended }
{
    !ended && bytes.len() <= TextLimits::LINE
}

// Whether a line may be a heading row: the first line, with no digit.
fn is_heading(line: usize, bytes: &[u8]) -> bool
    ensures { result ≡ is_heading line bytes.now }
{
    line == 1 && !has_byte(bytes, b'0', b'9')
}

// The causes, in the order of the rule's table (`hint_tests`).
const HINTS: [Hint; 10] = [
    Hint::ByteOrderMark,
    Hint::Empty,
    Hint::CarriageReturn,
    Hint::NoLineFeed,
    Hint::LongLine,
    Hint::Heading,
    Hint::EndTab,
    Hint::Separator,
    Hint::LowerCase,
    Hint::Point,
];

impl Hint {
    // Whether the cause shows in a line, given its number, its bytes without the line feed and whether it has one.
    fn shows(self, line: usize, bytes: &[u8], ended: bool) -> bool
        ensures { result ≡ shows line (line_of bytes.now ended) self }
    {
        match self {
            Hint::ByteOrderMark => starts_with_mark(bytes),
            Hint::Empty => bytes.is_empty(),
            Hint::CarriageReturn => has_byte(bytes, b'\r', b'\r'),
            Hint::NoLineFeed => lacks_feed(bytes, ended),
            Hint::LongLine => !ended,
            Hint::Heading => is_heading(line, bytes),
            Hint::EndTab => ends_in(bytes, b'\t'),
            Hint::Separator => has_separator(bytes),
            Hint::LowerCase => has_byte(bytes, b'a', b'z'),
            Hint::Point => has_byte(bytes, b'.', b'.'),
        }
    }
}

// The hint for a line: the first cause that shows. A cause behind it is not looked for, since a line may be long.
fn hint_of(line: usize, bytes: &[u8], ended: bool) -> Option<Hint>
    ensures { result ≡ hint_of line (line_of bytes.now ended) }
{
    HINTS
        .iter()
        .copied()
        .find(|hint| hint.shows(line, bytes, ended))
}

// The hint for line number `line`, from 1, of a list; `text` starts at that line and runs on to the end of the list.
fn hint_for(line: usize, text: &[u8]) -> Option<Hint>
    ensures { result ≡ hint_of line (cut_line text.now) }
{
    let n = line_length(text);
    hint_of(line, &text[..n], n < text.len())
}

// What is told of this list; nothing where each line is accepted.
pub fn explain(text: &[u8]) -> Option<Explanation>
    ensures { Explained text.now result }
{
    let stop = refused_line(text)?;
    Some(Explanation {
        line: stop.number,
        why: stop.why,
        hint: hint_for(stop.number, &text[stop.at..]),
    })
}
