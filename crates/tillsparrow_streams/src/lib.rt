// What the programs share: a stream read, an answer written, a run from one stream to another, the lines of a refusal and of a picture's
// head, a text put into a buffer, a record as its numbers, and the limits that they run with.
#![tactic(auto)]

ghost use Rattle.std.specs.Prelude.{ℕ, ◌+◌, ◌≤◌, ◌≡◌, List, OnOk, length, take};
ghost use Rattle.std.specs.Io.KnownBytes.{Appends, Consumes};
ghost use Rattle.tillsparrow_streams.specs.Read.{Fills, Took};
ghost use Rattle.tillsparrow_streams.specs.Lines.{line_text, fitting, placed};
ghost use Rattle.tillsparrow_streams.specs.Faults.{fault_text};
ghost use Rattle.tillsparrow_streams.specs.Answers.{own_limits, refusing, replying, text_of, Answered};
ghost use Rattle.tillsparrow_streams.specs.Numbers.{numbers_of, numbers_text};

use reading::{Frame, Limits, Record, Refusal, Tables, Verdict};
use std::fmt::{self, InlineText, Write as _};
use std::io::{self, Read, Write};
use std::str;

// A read of a stream failed, behind so many bytes.
#[derive(Clone, Copy, Debug, PartialEq, Eq)]
pub struct Unread {
    pub behind: usize,
}

// Reads a stream until it ends or the buffer is full: how many bytes stand at the buffer's start.
pub fn fill<R: Read>(stream: &mut R, buffer: &mut [u8]) -> Result<usize, Unread>
    ensures room { Fills (length buffer.new) result }
    ensures bytes { Took (R.remaining stream.old) (R.remaining stream.new) buffer.new result }
{
    let mut n = 0;
    // a read takes as many bytes as the stream gives at once
    while n < buffer.len() {
        match stream.read(&mut buffer[n..]) {
            Ok(0) => break,
            Ok(more) => n += more,
            Err(_) => return Err(Unread { behind: n }),
        }
    }
    Ok(n)
}

// Reads a stream until the buffer is full, the stream ends or a read fails: how many bytes stand at the buffer's start.
pub fn read_full<R: Read>(stream: &mut R, buffer: &mut [u8]) -> usize
    ensures room { result ≤ length buffer.new }
    ensures bytes { Consumes (R.remaining stream.old) (R.remaining stream.new) (take result buffer.new) }
{
    fill(stream, buffer).unwrap_or_else(|unread| unread.behind)
}

// Writes the first n bytes to a stream; it is an error that there are fewer, too. The length stands beside the buffer here and in `Answer`, since
// an answer that lent that part would hold the buffer, of which the contracts of the programs' `convert` say how it is left; docs/DECISIONS.md
// names these calls.
pub fn write_first<W: Write>(stream: &mut W, bytes: &[u8], n: usize) -> io::Result<()>
    ensures room { OnOk result (n ≤ length bytes.now) }
    ensures written { OnOk result (Appends (W.contents stream.old) (W.contents stream.new) (take n bytes.now)) }
{
    let first = bytes.get(..n).ok_or(io::ErrorKind::InvalidInput)?;
    stream.write_all(first)
}

// Puts a text into a line from a place on, as much of it as there is room for; answers the place behind it. A place, and no rest of the
// slice, goes from call to call: the contract fixes the whole line, as it lies in fixed memory.
pub fn put(line: &mut [u8], at: usize, text: &[u8]) -> usize
    ensures behind { result ≡ at + fitting line.old at text.now }
    ensures written { line.new ≡ placed line.old at text.now }
{
    if line.len() <= at {
        return at;
    }
    let n = text.len().min(line.len() - at);
    line[at..at + n].copy_from_slice(&text[..n]);
    at + n
}

// What stands before the bytes of its output that a program writes: nothing, `refused N`, the head of a record's picture, or the first
// so many bytes of any text, which need not be UTF-8.
#[derive(Clone, Copy, Debug, PartialEq, Eq)]
pub enum Line {
    Empty,
    Refused(Refusal),
    Picture(Record),
    Text {
        bytes: [u8; Line::ROOM],
        length: usize,
    },
}

impl Line {
    // the head of a picture has at most 49 bytes, whatever its record
    pub const ROOM: usize = 64;
}

impl fmt::Display for Line {
    ghost use Rattle.std.specs.Prelude.{Some};

    ghost output = { λ line. Some (line_text line) };

    #[tactic(auto, unfolding(crate::specs::Lines::line_text))]
    fn fmt<W: fmt::Write>(&self, f: &mut fmt::Formatter<W>) -> fmt::Result {
        match self {
            Self::Empty => Ok(()),
            Self::Refused(x) => writeln!(f, "refused {}", x.number()),
            Self::Picture(found) => {
                let Frame {
                    width,
                    height,
                    channels,
                    ..
                } = found.frame;
                let kind = if channels == 1 { "P5" } else { "P6" };
                writeln!(f, "{kind}\n{width} {height}\n255")
            }
            Self::Text { bytes, length } => {
                let text = bytes.get(..*length).ok_or(fmt::Error)?;
                f.write_str(str::from_utf8(text).map_err(|_| fmt::Error)?)
            }
        }
    }
}

// What a program answers: a line, and how many bytes of its output follow it.
#[derive(Clone, Copy, Debug, PartialEq, Eq)]
pub struct Answer {
    pub line: Line,
    pub follow: usize,
}

impl Answer {
    // a refusal's line and nothing behind it
    pub fn refused(x: Refusal) -> Self
        ensures { result ≡ refusing x }
    {
        Self {
            line: Line::Refused(x),
            follow: 0,
        }
    }

    // a line and what follows it where a call accepted, else its refusal's line
    pub fn of(verdict: Verdict, line: Line, follow: usize) -> Self
        ensures { result ≡ replying verdict line follow }
    {
        match verdict {
            Ok(()) => Self { line, follow },
            Err(x) => Self::refused(x),
        }
    }
}

// Writes an answer to a stream: its line by one `write_all`, so that the lines of programs that share a file or a pipe stay whole, and what
// follows by another. It is an error that a text has fewer bytes than its length says, or the output fewer than follow the line, too.
pub fn write<W: Write>(stream: &mut W, answer: Answer, output: &[u8]) -> io::Result<()>
    ensures room { OnOk result (answer.follow ≤ length output.now) }
    ensures written { OnOk result (Appends (W.contents stream.old) (W.contents stream.new) (text_of answer output.now)) }
{
    let mut text = InlineText::<{ Line::ROOM }>::new();
    let line = match &answer.line {
        Line::Text { bytes, length } => bytes.get(..*length).ok_or(io::ErrorKind::InvalidInput)?,
        line => {
            write!(text, "{line}").map_err(|_| io::ErrorKind::InvalidInput)?;
            text.as_str().as_bytes()
        }
    };
    stream.write_all(line)?;
    write_first(stream, output, answer.follow)
}

// What a program makes of a file: it writes its answer to a stream.
pub trait Program {
    ghost written: { List ℕ → List ℕ };

    fn answer<W: Write>(stream: &mut W, s: &[u8]) -> io::Result<()>
        ensures { OnOk result (Appends (W.contents stream.old) (W.contents stream.new) (written s.now)) };
}

// Why a program cannot go on; written, what it says on standard error.
#[derive(Clone, Copy, Debug, PartialEq, Eq)]
pub enum Fault {
    Unread,
    Unwritten,
}

impl fmt::Display for Fault {
    ghost use Rattle.std.specs.Prelude.{Some};

    ghost output = { λ fault. Some (fault_text fault) };

    fn fmt<W: fmt::Write>(&self, f: &mut fmt::Formatter<W>) -> fmt::Result {
        f.write_str(match self {
            Self::Unread => "tillsparrow: the input cannot be read",
            Self::Unwritten => "tillsparrow: the output cannot be written",
        })
    }
}

// Runs a program from one stream to another. One byte more than the input limit is looked at, so that a longer file is seen to be longer.
pub fn run<P: Program, R: Read, W: Write>(input: &mut R, output: &mut W) -> Result<(), Fault>
    ensures { OnOk result (Answered P.written (R.remaining input.old) (R.remaining input.new) (W.contents output.old) (W.contents output.new)) }
{
    let mut file = [0; Limits::BUFFER + 1];
    let n = fill(input, &mut file).map_err(|_| Fault::Unread)?;
    P::answer(output, &file[..n]).map_err(|_| Fault::Unwritten)
}

// The limits of a program with buffers of 65,536 bytes.
pub fn limits() -> Limits
    ensures { result ≡ own_limits }
{
    Limits {
        input: Limits::BUFFER,
        side: Limits::SIDE,
        output: Limits::BUFFER,
    }
}

// Limits that no file exceeds.
pub fn no_limits() -> Limits
    ensures { result ≡ record { input = 18446744073709551615; side = 18446744073709551615; output = 18446744073709551615 } }
{
    Limits {
        input: usize::MAX,
        side: usize::MAX,
        output: usize::MAX,
    }
}

// A record's 46 numbers in their order; written, a blank stands before each.
#[derive(Clone, Copy)]
pub struct Numbers(pub [usize; 46]);

#[tactic(auto, unfolding(crate::specs::Numbers::numbers_of))]
impl From<Record> for Numbers {
    ghost from_gives = { λ found numbers. numbers.0 ≡ numbers_of found };

    fn from(found: Record) -> Self {
        let Frame {
            across,
            down,
            ids,
            qids,
            ..
        } = found.frame;
        let Tables { quants, dcs, acs } = found.tables;
        let Record { dcids, acids, .. } = found;
        let frame = [found.frame.width, found.frame.height, found.frame.channels];
        let lists = [across, down, ids, qids, dcids, acids, quants, dcs, acs];
        let scan = [
            found.interval,
            found.start,
            found.blocks,
            found.scratch,
            found.output,
            found.work as usize,
            usize::from(found.colour),
        ];
        let mut list = [0; 46];
        list[..3].copy_from_slice(&frame);
        list[3..39].copy_from_slice(lists.as_flattened());
        list[39..].copy_from_slice(&scan);
        Self(list)
    }
}

impl fmt::Display for Numbers {
    ghost use Rattle.std.specs.Prelude.{Some};

    ghost output = { λ numbers. Some (numbers_text numbers.0) };

    fn fmt<W: fmt::Write>(&self, f: &mut fmt::Formatter<W>) -> fmt::Result {
        for x in self.0 {
            write!(f, " {x}")?;
        }
        Ok(())
    }
}
