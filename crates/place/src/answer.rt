// Reading the list from standard input, and writing its answer. Nothing but `answer_input` is seen outside, so that no answer and no
// reading can be made up elsewhere.
ghost use Rattle.std.specs.Prelude.{◌≡◌, ◌<◌, IfOk, IfSome, OnOk, OnErr, IsErrOf, length, take, drop};
ghost use Rattle.std.specs.Io.KnownBytes.{Appends, Consumes, IsAtEnd, Keeps, ReadConsumes};
ghost use Rattle.plan.specs.rules.List.{longest_text};
ghost use Rattle.plan.specs.rules.Calls.{filled_with};
ghost use Rattle.place.specs.Input.{ReadBehind, ReadTo, after_read};
ghost use Rattle.place.specs.Reply.{output_by, Replied};

use crate::asked::How;
use crate::explain::tell_refused;
use crate::source::Source;
use desk::tell;
use plan::limits::TextLimits;
use plan::output::{output, output_at};
use std::io;
use std::io::Write;

// How many bytes were read of a list, and how many its output has.
#[derive(Clone, Copy)]
struct Answer {
    read: usize,
    written: usize,
}

// Why there is no answer.
#[derive(Clone, Copy)]
enum Fault {
    Unread,
    Unwritten,
}

impl Fault {
    // What is told of it.
    fn words(self) -> &'static [u8] {
        match self {
            Fault::Unread => b"place: standard input cannot be read\n",
            Fault::Unwritten => b"place: standard output cannot be written\n",
        }
    }
}

// One read into what is left of the room: how many bytes it brought, and none where the input has ended. A function of its own,
// which the edits reads_over_each_other and failed_read_as_end change.
fn read_once<S: Source>(input: &mut S, text: &mut [u8], at: usize) -> io::Result<usize>
    requires { at < length text.old }
    ensures behind { ReadBehind at text.old (after_read at result) text.new }
    ensures bytes { ReadConsumes (S.remaining input.old) (S.remaining input.new) result (drop at text.new) }
    ensures failed { OnErr result (S.has_failed input.new) }
{
    input.bring(&mut text[at..])
}

// Reads until the input ends or the room is full, however the bytes arrive, and gives how many came. It gives an error only where the
// last read did.
fn read_input<S: Source>(input: &mut S, text: &mut [u8]) -> io::Result<usize>
    ensures reads { ReadTo (S.has_failed input.new) text.old result text.new }
    ensures bytes { IfOk result (λ n. Consumes (S.remaining input.old) (S.remaining input.new) (take n text.new)) }
    ensures end { IfOk result (λ n. n < length text.new → IsAtEnd (S.remaining input.new)) }
{
    let mut at = 0;
    // By offset: a step is what one read brings, and `read_to_end` takes a Vec, where memory can run out.
    while at < text.len() {
        let n = read_once(input, text, at)?;
        if n == 0 {
            return Ok(at);
        }
        at += n;
    }
    Ok(at)
}

// The output for a list, by the way and at the side asked for.
fn put_output(text: &[u8], how: How, buffer: &mut [u8; TextLimits::SHEET]) -> usize
    ensures length { result ≡ length (output_by how.way how.at text.now) }
    ensures buffer { buffer.new ≡ filled_with (output_by how.way how.at text.now) buffer.old }
{
    match how.at {
        None => output(text, how.way, buffer),
        Some(side) => output_at(text, how.way, side, buffer),
    }
}

// Reads the list into the room and puts its output into the buffer. The bytes read decide every longer text. A list cut short by a
// failed read has no output, and every other has one.
fn reply<S: Source>(
    input: &mut S,
    text: &mut [u8],
    how: How,
    buffer: &mut [u8; TextLimits::SHEET],
) -> io::Result<Answer>
    requires { length text.old ≡ longest_text }
    ensures replied { Replied (S.has_failed input.new) how.way how.at text.old text.new result buffer.new }
    ensures known { IfOk result (λ answer. IfSome (S.remaining input.old) (λ list. take answer.written buffer.new ≡ output_by how.way how.at list)) }
{
    let read = read_input(input, text)?;
    let written = put_output(&text[..read], how, buffer);
    Ok(Answer { read, written })
}

// Answers the list that a source has: writes its output, and why the list is refused where it is. The list is called unread only where
// the last read failed.
fn answer_list<S: Source, W: Write, E: Write>(
    input: &mut S,
    out: &mut W,
    err: &mut E,
    how: How,
) -> Result<(), Fault>
    ensures written { OnOk result (IfSome (S.remaining input.old) (λ list.
        Appends (W.contents out.old) (W.contents out.new) (output_by how.way how.at list))) }
    ensures unread { IsErrOf result Fault.Unread → Keeps (W.contents out.old) (W.contents out.new) }
    ensures failed { IsErrOf result Fault.Unread → S.has_failed input.new }
{
    let mut text = [0u8; TextLimits::TEXT];
    let mut buffer = [0u8; TextLimits::SHEET];
    let answer = reply(input, &mut text, how, &mut buffer).map_err(|_| Fault::Unread)?;
    let output = &buffer[..answer.written];
    out.write_all(output).map_err(|_| Fault::Unwritten)?;
    // A refusal starts with the word refused, a sheet with the word side. By the byte, since `output` hands back a length alone.
    if output.starts_with(b"r") {
        tell_refused(err, &text[..answer.read], how);
    }
    Ok(())
}

// Answers the list on standard input, by the way and at the side asked for.
pub(crate) fn answer_input(rt: HostRuntime, how: How) {
    if let Err(fault) = answer_list(&mut rt.stdin(), &mut rt.stdout(), &mut rt.stderr(), how) {
        tell(&mut rt.stderr(), fault.words());
    }
}
