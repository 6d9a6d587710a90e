// Huffman tables in T.81 Annex C order (the rules' 'From SOI to SOS' and 'Bits, symbols, blocks'): whether a table's codes fit,
// and the symbol of the code that stands next in a scan.
#![tactic(auto)]

ghost use Rattle.std.specs.Prelude.{◌≡◌};
ghost use Rattle.reading.specs.Bits.{one};
ghost use Rattle.reading.specs.Huffman.{symbol, table_at};
ghost use Rattle.reading.specs.Code.Answers.{read_of};
ghost use Rattle.jpeg_huffman.specs.Fitting.{counts_fit};

use reading::{Bits, Fault};

// At most sixteen counts, and after each length L the next code is at most 2^L - 1, so that all ones is never a code.
pub fn fits(counts: &[u8]) -> bool
    ensures { result ≡ counts_fit counts.now }
{
    if 16 < counts.len() {
        return false;
    }
    let mut next = 0usize;
    let mut power = 1usize;
    for count in counts {
        power = 2 * power;
        next = 2 * next + *count as usize;
        if power <= next {
            return false;
        }
    }
    true
}

// The symbol of the next code in s (T.81 F.2.2.3, DECODE). The table's counts stand at `base` of t, its symbols behind them; a
// count past the end of t is not there, and a symbol past it is 0. `past` is how far the code so far lies past the last one of the
// lengths before, and `place` that of the first symbol of this length. It is never below 0, whatever the table: a code that is none
// of its length is as far past the first as there are codes of it, or farther. With an end of `t.len().min(base + 16)` an inspect took 4
// hundredths more: the compiler did not see then that there are at most 16 counts.
pub fn symbol(t: &[u8], base: usize, s: &[u8], b: Bits) -> Result<(usize, Bits), Fault>
    ensures { read_of result ≡ symbol (one s.now) (table_at t.now base) b }
{
    if t.len() <= base {
        return Err(Fault::NoCode);
    }
    let mut here = b;
    let mut past = 0usize;
    let mut place = base + 16;
    for count in &t[base..base + (t.len() - base).min(16)] {
        let (x, after) = jpeg_bits::bit(s, here)?;
        let many = *count as usize;
        let code = 2 * past + x as usize;
        if code < many {
            return Ok((reading::at_or(t, place + code, 0) as usize, after));
        }
        here = after;
        past = code - many;
        place += many;
    }
    Err(Fault::NoCode)
}
