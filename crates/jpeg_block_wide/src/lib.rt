// The levels of one block at a wide cursor (the rules' 'Bits, symbols, blocks'). A look at the next 9 bits gives most symbols with their
// values; the plain walk gives the others, and all faults. At every bit place that the cursor meets the block is that of the rules.
#![tactic(auto)]

ghost use Rattle.std.specs.Prelude.{◌≡◌};
ghost use Rattle.reading.specs.Bits.{one};
ghost use Rattle.reading.specs.Huffman.{table_at};
ghost use Rattle.reading.specs.Block.{block};
ghost use Rattle.jpeg_block_wide.specs.Blocks.{part_of, serving, ending, StepMeets, FirstMeets, RestMeets, Begun, told, heard, Sound};

use jpeg_bits_wide::Wide;
use jpeg_block::{Asked, Step};
use reading::{BlockRead, Fault};

// One symbol of a block by the plain walk, by the table at `base`, and its value. A code and a value have at most 27 bits, so that a
// cursor that was filled up for the one has all of the other.
fn step(
    t: &[u8],
    base: usize,
    s: &[u8],
    w: Wide,
    place: usize,
    pred: i32,
) -> Result<Step<Wide>, Fault>
    ensures { StepMeets t.now base s.now w place pred result }
{
    let (x, behind) = jpeg_huffman_table::plain(t, base, s, w)?;
    match jpeg_block::ask(place, x)? {
        Asked::End => Ok(Step::End(behind)),
        Asked::Skip => Ok(Step::Skip(behind)),
        Asked::Value(run, size) => {
            let Wide { at, acc, left } = behind;
            if left < size {
                return Err(jpeg_bits_wide::fault_at(s, at));
            }
            let v = jpeg_bits_wide::meant(jpeg_bits_wide::top(acc, size) as u16, size);
            let after = Wide {
                at,
                acc: acc << size,
                left: left - size,
            };
            jpeg_block::level(place + run, v as i16, after, pred)
        }
    }
}

// Where the entries of a channel begin: those of all four are one array, as memory is fixed.
fn part(c: usize) -> usize
    ensures { result ≡ part_of c }
{
    1024 * c.min(4)
}

// The first level, by a look where that serves.
fn first(
    t: &[u8],
    dc: usize,
    look: &[u16; 4096],
    from: usize,
    s: &[u8],
    w: Wide,
    pred: i32,
) -> Result<Step<Wide>, Fault>
    ensures { FirstMeets t.now dc look.now from s.now w pred result }
{
    let Wide { at, acc, left } = jpeg_bits_wide::topped(s, w);
    let e = jpeg_huffman_table::entry(look, from, acc);
    let total = e / 256;
    let size = e % 16;
    if total == 0 || left < total {
        return step(t, dc, s, Wide { at, acc, left }, 0, pred);
    }
    let v = jpeg_bits_wide::meant(jpeg_huffman_table::field(acc, total, size), size);
    let after = Wide {
        at,
        acc: acc << (total % 64),
        left: left - total,
    };
    jpeg_block::level(0, v as i16, after, pred)
}

// Whether an entry serves at a place: it has a value, all its bits are there, and the value stands before place 64.
fn serves(total: usize, left: usize, size: usize, k: usize) -> bool
    ensures { result ≡ serving total left size k }
{
    0 < total && 0 < size && total <= left && k < 64
}

// Whether an entry is that of the end code, and all its bits are there.
fn ends(total: usize, left: usize, x: usize) -> bool
    ensures { result ≡ ending total left x }
{
    0 < total && total <= left && x == 0
}

// The later levels, to the first of: end code, place 64, fault. The cursor is kept in three numbers, so that a look and a value cost no
// store and no load of it. A turn goes on by a run, by 16 places or to the end, so that no `for` counts the places.
fn rest(
    t: &[u8],
    ac: usize,
    look: &[u16; 4096],
    from: usize,
    s: &[u8],
    w: Wide,
    levels: &mut [i16; 64],
) -> Result<BlockRead<Wide>, Fault>
    ensures { RestMeets t.now ac look.now from s.now w levels.old result levels.new }
{
    let Wide {
        mut at,
        mut acc,
        mut left,
    } = w;
    let mut place = 1usize;
    let mut reach = 1usize;
    while place < 64 {
        Wide { at, acc, left } = jpeg_bits_wide::topped(s, Wide { at, acc, left });
        let e = jpeg_huffman_table::entry(look, from, acc);
        let total = e / 256;
        let size = e % 16;
        let k = place + e % 256 / 16;
        let behind = acc << (total % 64);
        if serves(total, left, size, k) {
            let v = jpeg_bits_wide::meant(jpeg_huffman_table::field(acc, total, size), size);
            levels[k] = v as i16;
            acc = behind;
            left -= total;
            place = k + 1;
            reach = place;
            continue;
        }
        if ends(total, left, e % 256) {
            acc = behind;
            left -= total;
            break;
        }
        match step(t, ac, s, Wide { at, acc, left }, place, 0)? {
            Step::End(q) => {
                Wide { at, acc, left } = q;
                break;
            }
            Step::Skip(q) => {
                Wide { at, acc, left } = q;
                place += 16;
            }
            Step::Put(n, z, q) => {
                levels[n] = z;
                Wide { at, acc, left } = q;
                place = n + 1;
                reach = place;
            }
        }
    }
    Ok(BlockRead {
        after: Wide { at, acc, left },
        first: levels[0] as i32,
        reach,
    })
}

// A block at a cursor, by the tables at dc and ac of t and the entries of channel c.
pub fn block(
    t: &[u8],
    dc: usize,
    ac: usize,
    look: &[u16; 4096],
    c: usize,
    s: &[u8],
    from: Wide,
    pred: i32,
    levels: &mut [i16; 64],
) -> Result<BlockRead<Wide>, Fault>
    ensures { (o : Begun t.now dc ac look.now c s.now from) → (told s.now result levels.new ≡ heard s.now (block (one s.now) (table_at t.now dc) (table_at t.now ac) pred o.place)) × Sound result }
{
    *levels = [0i16; 64];
    let entries = part(c);
    match first(t, dc, look, entries, s, from, pred)? {
        Step::Put(_, z, w) => {
            levels[0] = z;
            rest(t, ac, look, entries + 512, s, w, levels)
        }
        // neither the end nor 16 zeros come first
        _ => Err(Fault::Broken),
    }
}
