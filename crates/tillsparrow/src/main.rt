// The program: a file from standard input, its picture as PPM or PGM to standard output, or `refused N` and a newline and nothing
// else. What matters is in the libraries; here are two buffers and the two calls.
#![tactic(auto)]

ghost use Rattle.std.specs.Prelude.{◌≡◌, replicate};
ghost use Rattle.tillsparrow.specs.Answer.{unheld, leaving, shown, answered, written};

use reading::{Budget, Limits, Record, Refusal};
use std::io::{self, Write};
use tillsparrow_streams::{Answer, Line, Program};

// Two or four channels, which neither PGM nor PPM holds.
fn unheld(channels: usize) -> bool
    ensures { result ≡ unheld channels }
{
    channels == 2 || channels == 4
}

// What inspect accepted. The program refuses two and four channels with 5, behind inspect; one and three are decoded.
fn show(s: &[u8], found: Record, output: &mut [u8], scratch: &mut [u8]) -> Answer
    ensures { leaving result output.new scratch.new ≡ shown s.now found output.old scratch.old }
{
    if unheld(found.frame.channels) {
        return Answer::refused(Refusal::Unsupported);
    }
    let drawn = jpeg::decode(s, found, output, scratch, Budget::fresh(u64::MAX));
    Answer::of(drawn.verdict, Line::Picture(found), found.output)
}

// The limits are the buffers'; colour is chosen, and the budget always suffices.
#[tactic(auto, unfolding(crate::specs::Answer::answered))]
fn convert(s: &[u8], output: &mut [u8], scratch: &mut [u8]) -> Answer
    ensures { leaving result output.new scratch.new ≡ answered s.now output.old scratch.old }
{
    let seen = jpeg::inspect(
        s,
        true,
        tillsparrow_streams::limits(),
        Budget::fresh(u64::MAX),
    );
    match seen.verdict {
        Ok(()) => show(s, seen.found, output, scratch),
        Err(x) => Answer::refused(x),
    }
}

// The program, as `run` takes it.
struct PictureFiles;

impl Program for PictureFiles {
    ghost written = { λ s. written (answered s (replicate 65536 0) (replicate 65536 0)) };

    fn answer<W: Write>(stream: &mut W, s: &[u8]) -> io::Result<()> {
        let mut output = [0; Limits::BUFFER];
        let mut scratch = [0; Limits::BUFFER];
        let made = convert(s, &mut output, &mut scratch);
        tillsparrow_streams::write(stream, made, &output)
    }
}

fn main(rt: HostRuntime) {
    let ran = tillsparrow_streams::run::<PictureFiles, _, _>(&mut rt.stdin(), &mut rt.stdout());
    if let Err(fault) = ran {
        let _ = eprintln!(rt; "{fault}");
    }
}
