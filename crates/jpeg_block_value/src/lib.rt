// What the bits behind a symbol mean (the rules' 'Bits, symbols, blocks'): a number by its size, and whether a first level that it makes
// can predict the next one.
#![tactic(auto)]

ghost use Rattle.std.specs.Prelude.{◌≡◌, ◌<◌, ◌≤◌, ◌^◌};
ghost use Rattle.reading.specs.Bits.{one, meaning};
ghost use Rattle.reading.specs.Code.Fields.{short_amplitude};
ghost use Rattle.reading.specs.Block.{predictable};
ghost use Rattle.reading.specs.Code.Answers.{read_of};

use reading::{Bits, Fault, Level};

// What n bits that make v mean: negative in the lower half. With no bits v is 0, and so is what it means. jpeg_bits_wide has a `meant` of
// its own, which is public and so asks nothing; this one asks that the bits fit, and takes no remainder.
fn meant(v: usize, n: usize) -> i32
    requires { (n ≤ 16) × (v < 2 ^ n) }
    ensures { result ≡ meaning n v }
{
    let span = 1usize << n;
    if 2 * v < span {
        return (v + 1) as i32 - span as i32;
    }
    v as i32
}

// n bits, at most 16, as the number that they mean.
pub fn amplitude(s: &[u8], b: Bits, n: usize) -> Result<(i32, Bits), Fault>
    ensures { read_of result ≡ short_amplitude (one s.now) n b }
{
    let (v, after) = jpeg_bits::read(s, b, n)?;
    Ok((meant(v, n), after))
}

// A first level can predict the next one.
pub fn predictable(level: i64) -> bool
    ensures { result ≡ predictable level }
{
    (Level::LEAST..=Level::MOST).contains(&level)
}
