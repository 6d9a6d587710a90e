// The program behind `--settle`: a file from standard input, its settled file to standard output, or `refused N` and a newline and
// nothing else. What matters is in the libraries; here are a buffer and the call.
#![tactic(auto)]

ghost use Rattle.std.specs.Prelude.{◌≡◌, replicate};
ghost use Rattle.reading.specs.Calls.{settle};
ghost use Rattle.tillsparrow_streams.specs.Answers.{own_limits, ample};
ghost use Rattle.tillsparrow_settle.specs.Answer.{leaving, answered, written};

use reading::{Budget, Limits};
use std::io::{self, Write};
use tillsparrow_streams::{Answer, Line, Program};

// The limits are those of the other program; the budget always suffices.
fn convert(s: &[u8], output: &mut [u8]) -> Answer
    ensures { leaving result output.new ≡ answered (settle s.now own_limits ample output.old) }
{
    let settling = jpeg::settle(
        s,
        tillsparrow_streams::limits(),
        Budget::fresh(u64::MAX),
        output,
    );
    Answer::of(settling.verdict, Line::Empty, settling.length)
}

// The program, as `run` takes it.
struct SettledFiles;

impl Program for SettledFiles {
    ghost written = { λ s. written (answered (settle s own_limits ample (replicate 262144 0))) };

    // A settled file can be longer than the file, so its buffer has four times the room.
    fn answer<W: Write>(stream: &mut W, s: &[u8]) -> io::Result<()> {
        let mut output = [0; 4 * Limits::BUFFER];
        let made = convert(s, &mut output);
        tillsparrow_streams::write(stream, made, &output)
    }
}

fn main(rt: HostRuntime) {
    let ran = tillsparrow_streams::run::<SettledFiles, _, _>(&mut rt.stdin(), &mut rt.stdout());
    if let Err(fault) = ran {
        let _ = eprintln!(rt; "{fault}");
    }
}
