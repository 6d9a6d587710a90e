// Answers a run of cases, a line each, so that the calls can be compared with another reader at scale. A case is nine big-endian
// 8-byte numbers (job, colour, three limits, budget, two rooms, n), then n bytes, and for job 4 the numbers of a record.
// tests/reference/README.md lays down cases and lines.
#![tactic(auto)]

ghost use Rattle.std.specs.Prelude.{◌≤◌, ◌<◌};

use reading::{Budget, Decoding, Frame, Limits, Record, Tables};
use std::io;
use tillsparrow_streams::Numbers;

// Why no more cases are answered.
#[derive(Clone, Copy)]
enum Stop {
    // the input is at its end
    End,
    // a case cannot be answered
    Bad,
    // a line could not be written
    Unwritten,
}

impl From<io::Error> for Stop {
    fn from(_e: io::Error) -> Self {
        Self::Unwritten
    }
}

// ---- numbers of a case

// Number k of a list of 8-byte numbers, high byte first; 0 behind its end.
fn number(list: &[u8], k: u8) -> u64 {
    list.get(8 * usize::from(k)..)
        .and_then(|rest| rest.first_chunk::<8>())
        .map_or(0, |bytes| u64::from_be_bytes(*bytes))
}

fn size(list: &[u8], k: u8) -> usize {
    number(list, k) as usize
}

fn four(list: &[u8], k: u8) -> [usize; 4]
    requires { k < 100 }
{
    [
        size(list, k),
        size(list, k + 1),
        size(list, k + 2),
        size(list, k + 3),
    ]
}

// A number that is 0 or 1, as the colour choice.
fn choice(list: &[u8], k: u8) -> Result<bool, Stop> {
    match number(list, k) {
        0 => Ok(false),
        1 => Ok(true),
        _ => Err(Stop::Bad),
    }
}

// A record from its 46 numbers.
fn record(list: &[u8]) -> Result<Record, Stop> {
    let (across, down, ids, qids) = (four(list, 3), four(list, 7), four(list, 11), four(list, 15));
    let (dcids, acids) = (four(list, 19), four(list, 23));
    let (quants, dcs, acs) = (four(list, 27), four(list, 31), four(list, 35));
    Ok(Record {
        frame: Frame {
            width: size(list, 0),
            height: size(list, 1),
            channels: size(list, 2),
            across,
            down,
            ids,
            qids,
        },
        tables: Tables { quants, dcs, acs },
        dcids,
        acids,
        interval: size(list, 39),
        start: size(list, 40),
        blocks: size(list, 41),
        scratch: size(list, 42),
        output: size(list, 43),
        work: number(list, 44),
        colour: choice(list, 45)?,
    })
}

// What is to be done: the file is inspected, decoded by its own record, settled, or decoded by a record that is given.
#[derive(Clone, Copy)]
enum Job {
    Inspect = 1,
    DecodeOwn = 2,
    Settle = 3,
    DecodeGiven = 4,
}

impl TryFrom<u64> for Job {
    type Error = Stop;

    fn try_from(number: u64) -> Result<Self, Stop> {
        match number {
            1 => Ok(Self::Inspect),
            2 => Ok(Self::DecodeOwn),
            3 => Ok(Self::Settle),
            4 => Ok(Self::DecodeGiven),
            _ => Err(Stop::Bad),
        }
    }
}

// What a case asks: the job, the colour choice, the limits and the budget, the room of the two buffers, and how long its file is.
#[derive(Clone, Copy)]
struct Case {
    job: Job,
    colour: bool,
    limits: Limits,
    budget: Budget,
    output: usize,
    scratch: usize,
    length: usize,
}

// A case from its nine numbers.
fn case_of(head: &[u8]) -> Result<Case, Stop> {
    Ok(Case {
        job: Job::try_from(number(head, 0))?,
        colour: choice(head, 1)?,
        limits: Limits {
            input: size(head, 2),
            side: size(head, 3),
            output: size(head, 4),
        },
        budget: Budget::fresh(number(head, 5)),
        output: size(head, 6),
        scratch: size(head, 7),
        length: size(head, 8),
    })
}

// ---- buffers

// The bytes that a buffer holds before a call: factor x i mod modulus at place i.
fn prepare(buffer: &mut [u8], factor: usize, modulus: usize)
    requires { (factor < modulus) × (modulus ≤ 256) }
{
    let mut value = 0;
    for byte in buffer {
        *byte = value as u8;
        value += factor;
        // a division a byte would take longer
        if modulus <= value {
            value -= modulus;
        }
    }
}

// The Adler-32 sum.
fn adler(bytes: &[u8]) -> u64 {
    let mut low = 1;
    let mut high = 0;
    for byte in bytes {
        low = (low + u64::from(*byte)) % 65521;
        high = (high + low) % 65521;
    }
    65536 * high + low
}

// ---- the calls

// A line goes out by one `println!`, which is one write of up to 1,024 bytes. The longest, with a record that inspect gives, has fewer than 300.
fn inspected(rt: &impl Print, case: Case, s: &[u8]) -> io::Result<()> {
    let answer = jpeg::inspect(s, case.colour, case.limits, case.budget);
    let named = reading::place_named(answer.verdict);
    println!(rt;
        "1 {} {} {} {}{}",
        reading::number(answer.verdict),
        answer.budget.left,
        named.block,
        named.place,
        Numbers::from(answer.found)
    )
}

// What inspect finds with no limit and a budget that always suffices; all zero where it refuses.
fn own_record(case: Case, s: &[u8]) -> Record {
    jpeg::inspect(
        s,
        case.colour,
        tillsparrow_streams::no_limits(),
        Budget::fresh(u64::MAX),
    )
    .found
}

// Decode on buffers that hold what every case begins with.
fn decoded(
    rt: &impl Print,
    case: Case,
    s: &[u8],
    found: Record,
    output: &mut [u8],
    scratch: &mut [u8],
) -> io::Result<()> {
    prepare(output, 11, 253);
    prepare(scratch, 7, 251);
    let Decoding { verdict, budget } = jpeg::decode(s, found, output, scratch, case.budget);
    println!(rt;
        "{} {} {} {} {}",
        case.job as u8,
        reading::number(verdict),
        budget.left,
        adler(output),
        adler(scratch)
    )
}

// Settle on a buffer that holds what every case begins with.
fn settled(rt: &impl Print, case: Case, s: &[u8], output: &mut [u8]) -> io::Result<()> {
    prepare(output, 11, 253);
    let answer = jpeg::settle(s, case.limits, case.budget, output);
    let named = reading::place_named(answer.verdict);
    println!(rt;
        "3 {} {} {} {} {} {}",
        reading::number(answer.verdict),
        answer.budget.left,
        named.block,
        named.place,
        answer.length,
        adler(output)
    )
}

// ---- the cases

// The record that is given behind a case's file.
fn given(rt: &HostRuntime) -> Result<Record, Stop> {
    let mut list = [0; 368];
    if tillsparrow_streams::read_full(&mut rt.stdin(), &mut list) < 368 {
        return Err(Stop::Bad);
    }
    record(&list)
}

// A case whose file was read.
fn answered(
    rt: &HostRuntime,
    case: Case,
    s: &[u8],
    output: &mut [u8],
    scratch: &mut [u8],
) -> Result<(), Stop> {
    match case.job {
        Job::Inspect => inspected(rt, case, s)?,
        Job::DecodeOwn => decoded(rt, case, s, own_record(case, s), output, scratch)?,
        Job::Settle => settled(rt, case, s, output)?,
        Job::DecodeGiven => decoded(rt, case, s, given(rt)?, output, scratch)?,
    }
    Ok(())
}

// The next case is read and answered.
fn next(
    rt: &HostRuntime,
    input: &mut [u8],
    output: &mut [u8],
    scratch: &mut [u8],
) -> Result<(), Stop> {
    let mut head = [0; 72];
    match tillsparrow_streams::read_full(&mut rt.stdin(), &mut head) {
        0 => return Err(Stop::End),
        72 => {}
        _ => return Err(Stop::Bad),
    }
    let case = case_of(&head)?;
    if input.len() < case.length || output.len() < case.output || scratch.len() < case.scratch {
        return Err(Stop::Bad);
    }
    let s = &mut input[..case.length];
    if tillsparrow_streams::read_full(&mut rt.stdin(), s) < case.length {
        return Err(Stop::Bad);
    }
    answered(
        rt,
        case,
        s,
        &mut output[..case.output],
        &mut scratch[..case.scratch],
    )
}

// A proved loop has to end, and nothing says that the input does: the turns are counted, up to a number that no run reaches.
fn run(
    rt: &HostRuntime,
    input: &mut [u8],
    output: &mut [u8],
    scratch: &mut [u8],
) -> Result<(), Stop> {
    for _ in 0..u64::MAX {
        next(rt, input, output, scratch)?;
    }
    Ok(())
}

fn main(rt: HostRuntime) {
    let mut input = [0; 262144];
    let mut output = [0; 262144];
    let mut scratch = [0; 262144];
    if let Err(Stop::Bad) = run(&rt, &mut input, &mut output, &mut scratch) {
        let _ = println!(&rt; "bad case");
    }
}
