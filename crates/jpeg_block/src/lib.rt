// The levels of one block, in zigzag order (the rules' 'Bits, symbols, blocks'): the first from its category and the prediction,
// the later ones from runs of zeros and values.
//
// The first level is read by the step that reads the later ones, at place 0. So `symbol` and `amplitude` are each called at one
// place, where they are inlined.
#![tactic(auto)]

ghost use Rattle.std.specs.Prelude.{◌≡◌, cond, ◌<◌, ◌≤◌, eqb};
ghost use Rattle.reading.specs.Bits.{one};
ghost use Rattle.reading.specs.Huffman.{table_at};
ghost use Rattle.reading.specs.Block.{block, zeros};
ghost use Rattle.reading.specs.Code.Answers.{said, levels_or, levels_of};
ghost use Rattle.jpeg_block.specs.Step.{asked_for, ask_at, step_read, level_at, value_at, stepped};

use reading::{Bits, BlockRead, Fault};

// What a symbol asks for: the end, 16 zeros, or a run of zeros and a value of a size.
#[derive(Clone, Copy)]
pub enum Asked {
    End,
    Skip,
    Value(usize, usize),
}

// The first symbol is a category, the size of the difference. Behind the last place only the end code is no fault.
#[tactic(auto, unfolding(crate::specs::Step::ask_at))]
pub fn ask(place: usize, x: usize) -> Result<Asked, Fault>
    ensures { result ≡ asked_for (ask_at place x) }
{
    let run = x / 16;
    let size = x % 16;
    match (place, x) {
        (0, 0..=11) => Ok(Asked::Value(0, x)),
        (0, _) => Err(Fault::Broken),
        (_, 0) => Ok(Asked::End),
        (_, 240) if place <= 48 => Ok(Asked::Skip),
        (1..=63, _) if 1 <= size && size <= 10 && place + run < 64 => Ok(Asked::Value(run, size)),
        _ => Err(Fault::Broken),
    }
}

// What a symbol and its value make of a block: its end, 16 zeros, or a level at a place; and the bit place behind it, of a reader's own
// kind.
#[derive(Clone, Copy)]
pub enum Step<P> {
    End(P),
    Skip(P),
    Put(usize, i16, P),
}

// The level that a value makes at a place: the first is the prediction and a difference. Their sum is taken in 64 bits, so that
// nothing is asked of the prediction.
pub fn level<P: Copy>(at: usize, v: i16, after: P, pred: i32) -> Result<Step<P>, Fault>
    ensures { step_read result ≡ level_at at pred v after }
{
    if at != 0 {
        return Ok(Step::Put(at, v, after));
    }
    let sum = pred as i64 + v as i64;
    if jpeg_block_value::predictable(sum) {
        return Ok(Step::Put(at, sum as i16, after));
    }
    Err(Fault::Broken)
}

// The level that a value of `size` bits makes at a place.
fn value(s: &[u8], b: Bits, at: usize, size: usize, pred: i32) -> Result<Step<Bits>, Fault>
    requires { size ≤ 11 }
    ensures { step_read result ≡ value_at (one s.now) at size pred b }
{
    let (v, after) = jpeg_block_value::amplitude(s, b, size)?;
    level(at, v as i16, after, pred)
}

// One symbol of a block, by the table at `base`, and its value.
fn one_step(
    t: &[u8],
    base: usize,
    s: &[u8],
    b: Bits,
    place: usize,
    pred: i32,
) -> Result<Step<Bits>, Fault>
    requires { place < 64 }
    ensures { step_read result ≡ stepped (one s.now) (table_at t.now base) place pred b }
{
    let (x, after) = jpeg_huffman::symbol(t, base, s, b)?;
    match ask(place, x)? {
        Asked::End => Ok(Step::End(after)),
        Asked::Skip => Ok(Step::Skip(after)),
        Asked::Value(run, size) => value(s, after, place + run, size, pred),
    }
}

// The symbols of a block, to the first of: end code, place 64, fault. At place 64 no end code is read.
fn walk(
    t: &[u8],
    dc: usize,
    ac: usize,
    s: &[u8],
    b: Bits,
    pred: i32,
    levels: &mut [i16; 64],
) -> Result<BlockRead<Bits>, Fault>
    requires { levels.old ≡ zeros 64 }
    ensures { let read = block (one s.now) (table_at t.now dc) (table_at t.now ac) pred b in
        (result ≡ said read) × (levels.new ≡ levels_or read levels.new) }
{
    let mut here = b;
    let mut place = 0usize;
    let mut reach = 1usize;
    // the first symbol has a table of its own
    let mut base = dc;
    while place < 64 {
        match one_step(t, base, s, here, place, pred) {
            Ok(Step::End(after)) => {
                here = after;
                break;
            }
            Ok(Step::Skip(after)) => {
                here = after;
                place += 16;
            }
            Ok(Step::Put(at, level, after)) => {
                levels[at] = level;
                reach = at + 1;
                here = after;
                place = at + 1;
            }
            // as an arm: `?` before the match costs settle an eighth of its time
            Err(f) => return Err(f),
        }
        base = ac;
    }
    Ok(BlockRead {
        after: here,
        first: levels[0] as i32,
        reach,
    })
}

// A block: its 64 levels, all 0 where it is refused, the bit place after it, its first level, and how many places its levels reach.
pub fn block(
    t: &[u8],
    dc: usize,
    ac: usize,
    s: &[u8],
    b: Bits,
    pred: i32,
    levels: &mut [i16; 64],
) -> Result<BlockRead<Bits>, Fault>
    ensures { let read = block (one s.now) (table_at t.now dc) (table_at t.now ac) pred b in (result ≡ said read) × (levels.new ≡ levels_of read) }
{
    *levels = [0; 64];
    let read = walk(t, dc, ac, s, b, pred, levels);
    if read.is_err() {
        *levels = [0; 64];
    }
    read
}
