// The bits of a scan, highest first (the rules' 'Bits, symbols, blocks'): one bit, and a field of bits.
// Each function equals its definition for every cursor, so nothing is asked of a caller.
#![tactic(auto)]

ghost use Rattle.std.specs.Prelude.{◌+◌, ◌*◌, ◌/◌, ◌%◌, ◌^◌, ◌<◌, ◌≤◌, ◌≡◌};
ghost use Rattle.reading.specs.Bits.{fresh, one};
ghost use Rattle.reading.specs.Code.Fields.{short_field};
ghost use Rattle.reading.specs.Code.Answers.{read_of};

use reading::{Bits, Fault};

// The first bit of the next data byte. A 255 must be followed by 0, which is skipped.
#[tactic(auto, using(crate::proofs::Next::fresh_ways))]
fn fresh(s: &[u8], at: usize) -> Result<(u8, Bits), Fault>
    ensures { read_of result ≡ fresh s.now at }
{
    if s.len() <= at {
        return Err(Fault::RanOut);
    }
    let byte = s[at];
    let mut next = at + 1;
    if byte == 255 {
        if s.len() <= next {
            return Err(Fault::RanOut); // a 255 as the very last byte counts as ran out
        }
        if s[next] != 0 {
            return Err(Fault::Bare);
        }
        next += 1;
    }
    Ok((
        byte / 128,
        Bits {
            at: next,
            byte,
            left: 7,
        },
    ))
}

// The next bit: the highest unread one of the current byte, or the first of the next data byte.
// A cursor may claim more than eight unread bits; those above its byte are 0.
#[tactic(auto, using(crate::proofs::Next::one_ways))]
pub fn bit(s: &[u8], b: Bits) -> Result<(u8, Bits), Fault>
    ensures { read_of result ≡ one s.now b }
{
    // one test for nearly every bit, so that it is made first
    if (1..=8).contains(&b.left) {
        let left = b.left - 1;
        return Ok(((b.byte >> left) % 2, Bits { left, ..b }));
    }
    if b.left == 0 {
        return fresh(s, b.at);
    }
    let left = b.left - 1;
    Ok((0, Bits { left, ..b }))
}

// The number v, and behind it k bits of a byte: those above its lowest `rest`. Above a byte there are zeros.
fn behind(v: usize, byte: u8, rest: usize, k: usize) -> usize
    requires { (v < 65536) × (k ≤ 16) }
    ensures { result ≡ v * 2 ^ k + byte / 2 ^ rest % 2 ^ k }
{
    if 8 <= rest {
        return v << k;
    }
    let part = (byte as usize >> rest) % (1 << k);
    (v << k) + part
}

// A field of `n` bits, at most 16: as many at once as the current byte still has.
pub fn read(s: &[u8], b: Bits, n: usize) -> Result<(usize, Bits), Fault>
    ensures { read_of result ≡ short_field (one s.now) n b }
{
    if 16 < n {
        return Err(Fault::Broken);
    }
    let mut here = b;
    let mut value = 0usize;
    let mut more = n;
    while (here.left as usize) < more {
        let left = here.left as usize;
        value = behind(value, here.byte, 0, left);
        more -= left;
        let (x, after) = fresh(s, here.at)?;
        value = 2 * value + x as usize;
        here = after;
        more -= 1;
    }
    let rest = here.left as usize - more;
    let all = behind(value, here.byte, rest, more);
    let after = Bits {
        left: rest as u8,
        ..here
    };
    Ok((all, after))
}
