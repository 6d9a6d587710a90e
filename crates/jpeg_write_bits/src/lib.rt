// Bits into the bytes of a settled scan (the rules' 'The settled scan'): a pen puts codes and their fields, pads its last byte with
// ones and puts markers. A byte is stored where the lent buffer has room and is counted in any case, so that one path both measures
// and writes.
#![tactic(auto)]

ghost use Rattle.std.specs.Prelude.{◌≡◌, [], ◌∷◌, ◌≤◌, ◌^◌};
ghost use Rattle.reading.specs.Huffman.{bits_of};
ghost use Rattle.jpeg_write_bits.specs.Page.{spot, byte_at, stuffed_at, bytes_at, page, fresh, put_all, closed_at, proper, Proper, restarted, end_at, symbol_bits, stroke, stroke_of};

use reading::within;

// Where the next byte goes, the value of the bits that wait for it, and how many bits it still wants, 1 to 8.
#[derive(Clone, Copy)]
pub struct Pen {
    pub at: usize,
    pub value: usize,
    pub missing: usize,
}

impl Pen {
    // before the first bit of the byte at `at`
    pub fn fresh(at: usize) -> Self
        ensures { result ≡ fresh at }
    {
        Self {
            at,
            value: 0,
            missing: 8,
        }
    }
}

// A byte, stored where there is room, and counted in any case.
fn put_byte(out: &mut [u8], at: usize, x: u8) -> usize
    ensures { spot out.new result ≡ byte_at (spot out.old at) x }
{
    if at < out.len() {
        out[at] = x;
    }
    at.saturating_add(1)
}

// A data byte: 0 follows 255.
#[tactic(auto, using(crate::proofs::Bytes::stuffed_full, crate::proofs::Bytes::stuffed_data))]
fn put_data(out: &mut [u8], at: usize, x: u8) -> usize
    ensures { spot out.new result ≡ stuffed_at (spot out.old at) x }
{
    let next = put_byte(out, at, x);
    if x == 255 {
        return put_byte(out, next, 0);
    }
    next
}

// 2 ^ n.
fn power(n: usize) -> usize
    requires { n ≤ 32 }
    ensures { result ≡ 2 ^ n }
{
    1 << n
}

// As writing leaves a pen: its byte wants 1 to 8 bits, and those that it has make the value.
fn proper(p: Pen) -> bool
    ensures { result ≡ proper p }
{
    within(1, 8, p.missing) && p.value < power(8 - p.missing)
}

// The low n bits of x, highest first. Each turn fills a byte: there are at most four.
fn put(out: &mut [u8], p: Pen, x: usize, n: usize) -> Pen
    requires { Proper p × (n ≤ 32) }
    ensures { page out.new result ≡ put_all (page out.old p) (bits_of n x) }
{
    let mut pen = p;
    let mut left = n;
    while pen.missing <= left {
        left -= pen.missing;
        let full = power(pen.missing);
        let byte = pen.value * full + (x / power(left)) % full;
        pen = Pen::fresh(put_data(out, pen.at, byte as u8));
    }
    let full = power(left);
    Pen {
        value: pen.value * full + x % full,
        missing: pen.missing - left,
        ..pen
    }
}

// The last byte, with ones behind its bits: the place after it.
fn finish(out: &mut [u8], p: Pen) -> usize
    requires { Proper p }
    ensures { spot out.new result ≡ closed_at (page out.old p) }
{
    if p.missing == 8 {
        return p.at;
    }
    let full = power(p.missing);
    let byte = p.value * full + (full - 1);
    put_data(out, p.at, byte as u8)
}

// 255 and a code.
#[tactic(auto, using(crate::proofs::Closings::two_bytes))]
fn put_marker(out: &mut [u8], at: usize, code: u8) -> usize
    ensures { spot out.new result ≡ bytes_at (spot out.old at) (255 ∷ code ∷ []) }
{
    let next = put_byte(out, at, 255);
    put_byte(out, next, code)
}

// Padding and a restart marker: a fresh pen behind them. A pen that is not proper writes nothing and stays as it came.
pub fn restart(out: &mut [u8], p: Pen, code: u8) -> Pen
    ensures { page out.new result ≡ restarted (page out.old p) code }
{
    if !proper(p) {
        return p;
    }
    let at = finish(out, p);
    Pen::fresh(put_marker(out, at, code))
}

// Padding and the last marker: the place behind it. A pen that is not proper writes nothing and stays where it is.
pub fn put_end(out: &mut [u8], p: Pen) -> usize
    ensures { spot out.new result ≡ end_at (page out.old p) }
{
    if !proper(p) {
        return p.at;
    }
    let at = finish(out, p);
    put_marker(out, at, 217)
}

// The code of a word, and the low `size` bits of a field behind it: the pen behind them. Where the word means no code, `size` is above
// 12 or the pen is not proper, nothing is written and there is none.
pub fn put_symbol(out: &mut [u8], p: Pen, word: usize, field: usize, size: usize) -> Option<Pen>
    ensures { stroke result out.new ≡ stroke_of (symbol_bits p word field size) (page out.old p) }
{
    let bits = word / 65536;
    if proper(p) && size <= 12 && within(1, 16, bits) {
        let full = power(size);
        let x = (word % 65536) * full + field % full;
        return Some(put(out, p, x, bits + size));
    }
    None
}
