// Runs the header over a list of vectors and writes a line for each: its place in the list, its number, and for an accepted one the
// record, field by field. The list stands on standard input and the lines that must come in `stdout`; tests/header/vectors.py makes
// both from the rules alone, and says how the list is laid out. Behind the list's end every byte counts as 0.
#![tactic(auto)]

ghost use Rattle.std.specs.Prelude.{◌<◌, IfOk};

use reading::{Record, Refusal};
use std::io;
use tillsparrow_streams::Numbers;

// a byte of the list, as a number, and how large it is at most
fn byte(list: &[u8], place: usize) -> usize
    ensures { result < 256 }
{
    jpeg_header_rules::byte_at(list, place)
}

// two bytes, high byte first
fn number(list: &[u8], place: usize) -> usize
    ensures { result < 65536 }
{
    jpeg_header_rules::word_at(list, place)
}

// a part of the list, into the file from a place on; what does not fit is left out
fn copied(list: &[u8], from: usize, length: usize, file: &mut [u8; 1024], to: usize)
    requires { (from < 65536) × (length < 65536) × (to < 16777216) }
{
    for (byte, place) in file.iter_mut().skip(to).zip(from..from + length) {
        *byte = reading::at_or(list, place, 0);
    }
}

// the parts one behind another; answers their length
fn joined(list: &[u8], at: usize, parts: usize, file: &mut [u8; 1024]) -> usize
    requires { (at < 16777216) × (parts < 256) }
{
    let mut length = 0;
    for k in 0..parts {
        let more = number(list, at + 4 * k + 2);
        copied(list, number(list, at + 4 * k), more, file, length);
        length += more;
    }
    length
}

fn patched(list: &[u8], at: usize, patches: usize, file: &mut [u8; 1024])
    requires { (at < 16777216) × (patches < 256) }
{
    for k in 0..patches {
        let place = number(list, at + 3 * k);
        if place < 1024 {
            file[place] = reading::at_or(list, at + 3 * k + 2, 0);
        }
    }
}

// ---- a line

// a file that has no room is refused as too long, which no line of the list expects
fn head_of(file: &[u8], length: usize, colour: bool) -> Result<Record, Refusal> {
    let file = file.get(..length).ok_or(Refusal::TooLong)?;
    jpeg_header::header(file, colour)
}

// a header's number, and the record of an accepted one
fn fields(rt: &impl Print, head: Result<Record, Refusal>) -> io::Result<()> {
    match head {
        Ok(found) => println!(rt; " 0{}", Numbers::from(found)),
        Err(x) => println!(rt; " {}", x.number()),
    }
}

// ---- the list

// the vector at a place of the list; answers the place of the next one
fn vector(rt: &impl Print, list: &[u8], at: usize, index: usize) -> io::Result<usize>
    requires { at < 1048576 }
    ensures { IfOk result (λ next. at < next) }
{
    let mut file = [0; 1024];
    let parts = byte(list, at);
    let length = joined(list, at + 1, parts, &mut file);
    let behind = at + 1 + 4 * parts;
    let patches = byte(list, behind + 1);
    patched(list, behind + 2, patches, &mut file);
    print!(rt; "{index}")?;
    fields(rt, head_of(&file, length, byte(list, behind) != 0))?;
    Ok(behind + 2 + 3 * patches)
}

fn run(rt: &impl Print, list: &[u8]) -> io::Result<()> {
    if 65536 < list.len() {
        return Ok(());
    }
    let mut at = number(list, 0);
    // the next vector's place follows from this one, and each takes a byte at least
    for index in 0..list.len() {
        if list.len() <= at {
            break;
        }
        at = vector(rt, list, at, index)?;
    }
    Ok(())
}

fn main(rt: HostRuntime) -> io::Result<()> {
    let mut list = [0; 65536];
    let length = tillsparrow_streams::read_full(&mut rt.stdin(), &mut list);
    run(&rt, &list[..length])
}
