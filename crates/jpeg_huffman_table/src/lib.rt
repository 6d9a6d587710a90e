// Symbols at one look: a table for each Huffman table, indexed by the next 9 bits, and the plain walk over the wide cursor for longer codes
// and near the end. Each function equals its definition for every table and cursor; that a look and the walk find the same symbol is a
// law of proofs/ (`look_agrees`), for tables of any width.
#![tactic(auto)]

ghost use Rattle.std.specs.Prelude.{◌≡◌, ◌%◌, ◌<◌, ◌≤◌, length, get_or};
ghost use Rattle.reading.specs.Huffman.{table_at};
ghost use Rattle.jpeg_huffman_table.specs.Symbols.{plainly};
ghost use Rattle.jpeg_huffman_table.specs.Looks.{entries, paired, looks, looked, field_at};

use jpeg_bits_wide::Wide;
use reading::Fault;

// As `jpeg_huffman::symbol`, over the wide cursor: 16 bits are there, or all that can be read.
// The two are not one function: a trait of cursors that give a bit, with its law and both impls, is longer than this loop.
pub fn plain(t: &[u8], base: usize, s: &[u8], from: Wide) -> Result<(usize, Wide), Fault>
    ensures { result ≡ plainly (table_at t.now base) s.now from }
{
    if t.len() <= base {
        return Err(Fault::NoCode);
    }
    let Wide {
        at,
        mut acc,
        mut left,
    } = jpeg_bits_wide::filled(s, from);
    let mut past = 0usize;
    let mut place = base + 16;
    for count in &t[base..t.len().min(base + 16)] {
        if left == 0 {
            return Err(jpeg_bits_wide::fault_at(s, at));
        }
        let count = *count as usize;
        let code = 2 * past + (acc >> 63) as usize;
        acc <<= 1;
        left -= 1;
        if code < count {
            let found = reading::at_or(t, place + code, 0) as usize;
            return Ok((found, Wide { at, acc, left }));
        }
        past = code - count;
        place += count;
    }
    Err(Fault::NoCode)
}

// The entries of the table at `base` of t, 512 of them: 256 x (bits of code and value) + symbol; 0 where the 9 bits begin with no code.
// A symbol that a block does not take there has no entry: the plain way finds it and refuses. A code has at least one bit, so that 0 is no
// entry; an Option for each would take twice the memory, which is fixed.
// Each is what the plain walk finds in the 9 bits alone; all indices that begin with the code that it took have the same, and are filled
// in one turn, so that no `for` counts the turns.
fn fill(t: &[u8], base: usize, first: bool, look: &mut [u16])
    requires { length look.old ≡ 512 }
    ensures { look.new ≡ entries 9 first (table_at t.now base) }
{
    let mut w = 0usize;
    while w < 512 {
        let alone = Wide {
            at: 0,
            acc: (w as u64) << 55,
            left: 9,
        };
        match plain(t, base, &[], alone) {
            Ok((x, rest)) if reading::takes(first, x) => {
                let width = 1usize << rest.left;
                let n = width - w % width;
                look[w..w + n].fill((256 * (9 - rest.left + x % 16) + x) as u16);
                w += n;
            }
            _ => {
                look[w] = 0;
                w += 1;
            }
        }
    }
}

// The places of the tables, a channel's two after each other: one for each part of the entries.
pub fn paired(dcs: [usize; 4], acs: [usize; 4]) -> [usize; 8]
    ensures { result ≡ paired dcs acs }
{
    [
        dcs[0], acs[0], dcs[1], acs[1], dcs[2], acs[2], dcs[3], acs[3],
    ]
}

// The first part that is for the same levels as part j and by the table at the same place.
fn alike(bases: [usize; 8], j: usize) -> usize
    requires { j < 8 }
    ensures { (result ≤ j) × (result % 2 ≡ j % 2) × (get_or bases result 0 ≡ get_or bases j 0) }
{
    (0..j)
        .find(|&i| i % 2 == j % 2 && bases[i] == bases[j])
        .unwrap_or(j)
}

// The entries of four channels by the places of their tables in t: for each channel 512 for its first levels, then 512 for its later
// ones. Each table is filled once; where another channel goes by it, that channel has a copy. All are one array: memory is fixed, and an
// entry is looked up at the place that its bits name.
pub fn looks(t: &[u8], dcs: [usize; 4], acs: [usize; 4]) -> [u16; 4096]
    ensures { result ≡ looks t.now dcs acs }
{
    let bases = paired(dcs, acs);
    let mut look = [0u16; 4096];
    for j in 0..8 {
        let from = alike(bases, j);
        if from < j {
            look.copy_within(512 * from..512 * from + 512, 512 * j);
        } else {
            fill(t, bases[j], j % 2 == 0, &mut look[512 * j..512 * j + 512]);
        }
    }
    look
}

// The entry for the next 9 bits, of the 512 from `from` on; 0 where there are none. Bits that are not there are 0 in acc: a caller tests
// that as many are left as the entry takes. This and the next take and answer single numbers: so they are inlined wherever they are called.
#[tactic(auto, unfolding(crate::specs::Looks::looked))]
pub fn entry(look: &[u16; 4096], from: usize, acc: u64) -> usize
    ensures { result ≡ looked 9 look.now from acc }
{
    if 3584 < from {
        return 0;
    }
    look[from + (acc >> 55) as usize] as usize
}

// The value behind a code: the last `size` of the next `total` bits, at most 63 of them. Shifts go by the low bits of their amount, so that
// nothing is asked of it.
pub fn field(acc: u64, total: usize, size: usize) -> u16
    ensures { result ≡ field_at acc total size }
{
    ((acc >> ((64 - total % 64) % 64)) % (1u64 << (size % 16))) as u16
}
