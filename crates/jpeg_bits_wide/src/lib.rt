// The wide cursor: up to 64 bits of a scan at once (the rules' 'Bits, symbols, blocks'). Each function equals its definition for every
// cursor, so nothing is asked of a caller; what the bits of a proper one mean, and that filling it up changes nothing of what is to
// come, is said by the laws of proofs/.
#![tactic(auto)]

ghost use Rattle.std.specs.Prelude.{◌≡◌, ◌-◌, ◌/◌, ◌%◌, ◌^◌};
ghost use Rattle.jpeg_bits_wide.specs.Cursor.{fresh, word_at, filled, topped, fault_at, meant_by, narrowed};

use reading::{Bits, Fault};

// The bits to come: the highest `left` of `acc`, below which acc is 0, and then those of the data bytes from `at` on.
#[derive(Clone, Copy)]
pub struct Wide {
    pub at: usize,
    pub acc: u64,
    pub left: usize,
}

impl Wide {
    // before the first bit of the byte at `at`
    pub fn fresh(at: usize) -> Self
        ensures { result ≡ fresh at }
    {
        Self {
            at,
            acc: 0,
            left: 0,
        }
    }
}

// Four data bytes as one number, where there are four and none of them is 255.
fn word(s: &[u8], at: usize) -> Option<u32>
    ensures { result ≡ word_at s.now at }
{
    let (bytes, _) = s.get(at..)?.split_first_chunk::<4>()?;
    if bytes.contains(&255) {
        return None;
    }
    Some(u32::from_be_bytes(*bytes))
}

// Byte by byte while there is room: to a marker, to the end, or over 56 bits. What is to come stays the same.
// A turn goes past one byte or two, so that no `for` counts them; the cursor is in three numbers, which stay in registers.
pub fn filled(s: &[u8], w: Wide) -> Wide
    ensures { result ≡ filled s.now w }
{
    let Wide {
        mut at,
        mut acc,
        mut left,
    } = w;
    while left <= 56 && at < s.len() {
        let x = s[at];
        if x == 255 {
            if s.len() - at < 2 || s[at + 1] != 0 {
                break;
            }
            at += 2;
        } else {
            at += 1;
        }
        acc = acc.wrapping_add((x as u64) << (56 - left));
        left += 8;
    }
    Wide { at, acc, left }
}

// At least 32 bits, or all that there are. What is to come stays the same.
pub fn topped(s: &[u8], w: Wide) -> Wide
    ensures { result ≡ topped s.now w }
{
    if 32 <= w.left {
        return w;
    }
    let Some(v) = word(s, w.at) else {
        return filled(s, w);
    };
    Wide {
        at: w.at + 4,
        acc: w.acc.wrapping_add((v as u64) << (32 - w.left)),
        left: w.left + 32,
    }
}

// Why no bit can be read behind `at`, where reading stopped.
pub fn fault_at(s: &[u8], at: usize) -> Fault
    ensures { result ≡ fault_at s.now at }
{
    if s.len().saturating_sub(at) < 2 {
        Fault::RanOut
    } else {
        Fault::Bare
    }
}

// The number that the highest n bits make.
pub fn top(acc: u64, n: usize) -> usize
    ensures { result ≡ acc / 2 ^ (64 - n) }
{
    if n == 0 {
        return 0;
    }
    (acc >> 64usize.saturating_sub(n)) as usize
}

// What n bits that make v mean, n the low four bits of `size`: a symbol can be given for its size. Negative in the lower half.
// jpeg_block_value has a `meant` of its own, which requires that the bits fit; a public function requires nothing, and this one tests nothing.
pub fn meant(v: u16, size: usize) -> i32
    ensures { result ≡ meant_by (size % 16) v }
{
    let x = v as usize;
    let span = 1usize << (size % 16);
    if 2 * x < span {
        (x + 1) as i32 - span as i32
    } else {
        x as i32
    }
}

// The bit place of a cursor that has at most seven bits, as the plain engine keeps it: markers and the end are looked for there.
#[tactic(auto, unfolding(crate::specs::Cursor::narrowed))]
pub fn narrow(w: Wide) -> Bits
    ensures { result ≡ narrowed w }
{
    Bits {
        at: w.at,
        byte: (top(w.acc, w.left) % 256) as u8,
        left: (w.left % 256) as u8,
    }
}
