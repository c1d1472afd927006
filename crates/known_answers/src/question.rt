// A question: a call, a text in quotes where it takes one, and up to two numbers. Without quotes a text is as many bytes as the first
// number says of the lines of too many sites. `find` and `place` take the size of a work table, `choose` the word of a side and that
// size, `choose-number` the side as a number, in range or not. The text of `output-at` has the word of a side and a space in front.
// These, and `output`, are asked by the usual way of placing, and above where the word `above` stands in front of the call. Anywhere
// else, or in front of another call, that word makes the call an unknown one.
use crate::parts::{behind_one, numbers_in, split_or_all};
use crate::quoted::{put, unquoted};
use crate::sites::{LINES, lines};
use arrayvec::ArrayVec;
use placing::units::{HalfUnits, Side};
use placing::way::Way;
use plan::number::side_from;

// A question's text has no more bytes than the lines of the sites.
type Text = ArrayVec<u8, LINES>;

#[derive(Drop)]
pub enum Question {
    Enter {
        name: Text,
        x: u64,
        y: u64,
    },
    Read(Text),
    Find {
        way: Way,
        table: usize,
    },
    Choose {
        way: Way,
        side: Side,
        table: usize,
    },
    Place {
        way: Way,
        table: usize,
    },
    Side,
    Corner(usize),
    Count,
    Write(usize),
    Output {
        way: Way,
        given: Option<Side>,
        text: Text,
    },
    Lent,
    Limit(Text),
    Names,
}

// A question taken apart: the word of the call, the text between quotes where there is one, and the numbers. A
// missing one is 0: the calls make no difference between the two.
#[derive(Clone, Copy)]
struct Words<'a> {
    call: &'a [u8],
    quoted: Option<&'a [u8]>,
    numbers: [u64; 2],
}

impl Words<'_> {
    // None where another word stands among the numbers. A quote that is not closed has all that is left, and what stands next behind one
    // that is closed parts it from the numbers.
    fn split(question: &[u8]) -> Option<Words<'_>> {
        let (call, behind) = split_or_all(question, b' ');
        let (quoted, behind) = match behind.strip_prefix(b"\"") {
            Some(opened) => {
                let (quoted, behind) = split_or_all(opened, b'"');
                (Some(quoted), behind_one(behind))
            }
            None => (None, behind),
        };
        let numbers = numbers_in(behind)?;
        Some(Words {
            call,
            quoted,
            numbers,
        })
    }

    // The text.
    fn text(&self) -> Text {
        match self.quoted {
            Some(quoted) => unquoted(quoted),
            None => first_lines(self.numbers[0] as usize),
        }
    }

    // The question, where the call takes a way of placing. The words of the calls stand here alone, so that they are matched as text.
    fn placing(&self, way: Way) -> Option<Question> {
        let [a, b] = self.numbers;
        Some(match self.call {
            b"find" => Question::Find {
                way,
                table: a as usize,
            },
            b"choose" => Question::Choose {
                way,
                side: side_from(&self.text()),
                table: a as usize,
            },
            b"choose-number" => Question::Choose {
                way,
                side: numbered(a),
                table: b as usize,
            },
            b"place" => Question::Place {
                way,
                table: a as usize,
            },
            b"output" => Question::Output {
                way,
                given: None,
                text: self.text(),
            },
            b"output-at" => output_at(way, &self.text()),
            _ => return None,
        })
    }

    // The question, where the call takes no way.
    fn other(&self) -> Option<Question> {
        let [a, b] = self.numbers;
        Some(match self.call {
            b"enter" => Question::Enter {
                name: self.text(),
                x: a,
                y: b,
            },
            b"read" => Question::Read(self.text()),
            b"side" => Question::Side,
            b"corner" => Question::Corner(a as usize),
            b"count" => Question::Count,
            b"write" => Question::Write(a as usize),
            b"lent" => Question::Lent,
            b"limit" => Question::Limit(self.text()),
            b"names" => Question::Names,
            _ => return None,
        })
    }
}

// The first so many bytes of the lines of the sites.
fn first_lines(bytes: usize) -> Text {
    let mut text = Text::from(lines());
    text.truncate(bytes);
    text
}

// A number as a side, in range or not.
fn numbered(number: u64) -> Side {
    Side::Number(HalfUnits(u32::try_from(number).unwrap_or(u32::MAX)))
}

// The list stands behind the word of a side and a space.
fn output_at(way: Way, text: &[u8]) -> Question {
    let (side, behind) = split_or_all(text, b' ');
    let mut list = Text::new();
    put(&mut list, behind);
    Question::Output {
        way,
        given: Some(side_from(side)),
        text: list,
    }
}

impl Question {
    // How many bytes the call is lent, where it takes a work table or a buffer.
    pub fn lends(&self) -> Option<usize> {
        match self {
            Question::Find { table, .. }
            | Question::Choose { table, .. }
            | Question::Place { table, .. } => Some(*table),
            Question::Write(bytes) => Some(*bytes),
            _ => None,
        }
    }

    // The question of these words; none where no such call is asked.
    pub fn parse(question: &[u8]) -> Option<Question> {
        let above = question.strip_prefix(b"above ");
        let words = Words::split(above.unwrap_or(question))?;
        match above {
            Some(_) => words.placing(Way::Above),
            None => match words.placing(Way::Usual) {
                Some(question) => Some(question),
                None => words.other(),
            },
        }
    }
}
