// From the levels of one block to its 64 samples (the rules' 'Samples, places, colour'): coefficients in natural order, the double sum
// over the basis in two passes, each line in an even and an odd half, and the clamp. A level is an `i16` and a quantizer's entry a
// byte, so a coefficient lies within 2^23 and, each pass adding at most 17 bits, every sum within 2^58: `i64` holds them for every
// input.
#![tactic(auto)]

ghost use Rattle.std.specs.Prelude.{◌≡◌, [], ◌∷◌, ◌+◌, ◌*◌, ◌≤◌, ◌<◌, ◌^◌, pos, nat_abs, ◌*ℤ◌, length, take, replicate};
ghost use Rattle.whole.specs.Expressions.{at, Within};
ghost use Rattle.whole.specs.Lists.{list_of};
ghost use Rattle.reading.specs.Tests.{over};
ghost use Rattle.reading.specs.Colour.{to_byte};
ghost use Rattle.reading.specs.Transform.{coefficients};
ghost use Rattle.reading.specs.Code.Painted.{painted};
ghost use Rattle.jpeg_transform.specs.Halves.{even_of, listed, weighed, odd_of, halves, joined};
ghost use Rattle.jpeg_transform.specs.Passes.{place, spaced, lines, puts, rowed, rows_of, in_steps, columned, columns_of};

use reading::Sample;

// The natural place of each zigzag place.
const ZIGZAG: [u8; 64] = [
    0, 1, 8, 16, 9, 2, 3, 10, 17, 24, 32, 25, 18, 11, 4, 5, 12, 19, 26, 33, 40, 48, 41, 34, 27, 20,
    13, 6, 7, 14, 21, 28, 35, 42, 49, 56, 57, 50, 43, 36, 29, 22, 15, 23, 30, 37, 44, 51, 58, 59,
    52, 45, 38, 31, 39, 46, 53, 60, 61, 54, 47, 55, 62, 63,
];

// What one half of a line's inputs gives to its outputs 0, 1, 2, 3. Outputs 7, 6, 5, 4 have the same of the even half and the
// opposite of the odd half.
#[derive(Clone, Copy)]
struct Four(i64, i64, i64, i64);

// The even half: inputs 0, 2, 4, 6 share their products. By `weighed`, as the odd half is, a decode took 1 to 2 hundredths more.
fn even(c0: i64, c2: i64, c4: i64, c6: i64) -> Four
    requires { Within (2 ^ 40) (c0 ∷ c2 ∷ c4 ∷ c6 ∷ []) }
    ensures { result ≡ even_of c0 c2 c4 c6 }
{
    let sum = (c0 + c4) * 11585;
    let gap = (c0 - c4) * 11585;
    let near = c2 * 15137 + c6 * 6270;
    let far = c2 * 6270 - c6 * 15137;
    Four(sum + near, gap + far, gap - far, sum - near)
}

// Four inputs by four weights.
fn weighed(c: Four, k: Four) -> i64
    requires { (Within (2 ^ 40) (listed c)) × (Within (2 ^ 14) (listed k)) }
    ensures { result ≡ weighed c k }
{
    let Four(c0, c1, c2, c3) = c;
    let Four(k0, k1, k2, k3) = k;
    c0 * k0 + c1 * k1 + c2 * k2 + c3 * k3
}

// The odd half: inputs 1, 3, 5, 7, by their weights in the basis.
fn odd(c1: i64, c3: i64, c5: i64, c7: i64) -> Four
    requires { Within (2 ^ 40) (c1 ∷ c3 ∷ c5 ∷ c7 ∷ []) }
    ensures { result ≡ odd_of c1 c3 c5 c7 }
{
    let c = Four(c1, c3, c5, c7);
    let o0 = weighed(c, Four(16069, 13623, 9102, 3196));
    let o1 = weighed(c, Four(13623, -3196, -16069, -9102));
    let o2 = weighed(c, Four(9102, -16069, 3196, 13623));
    let o3 = weighed(c, Four(3196, -9102, 13623, -16069));
    Four(o0, o1, o2, o3)
}

// A double sum, moved up by the middle, in steps of a sample, rounded down.
fn in_steps(v: i64) -> i32
    requires { nat_abs v ≤ 2 ^ 57 }
    ensures { result ≡ in_steps v }
{
    ((v + Sample::MIDDLE) >> Sample::STEP_BITS) as i32
}

// A coefficient: level x quantizer.
fn coefficient(level: i16, quantizer: u8) -> i64
    ensures { (result ≡ level *ℤ pos quantizer) × (nat_abs result ≤ 2 ^ 23) }
{
    level as i64 * quantizer as i64
}

// The coefficients of a block at each zigzag place that counts, stored in natural order; the others stay 0.
fn dequantize(levels: &[i16; 64], quantizer: &[u8], places: usize, block: &mut [i64; 64])
    requires { block.old ≡ replicate 64 (pos 0) }
    ensures { (block.new ≡ coefficients quantizer.now (take places levels.now)) × (Within (2 ^ 23) block.new) }
{
    // A copy for the whole loop: an array constant is built anew wherever it is indexed.
    let order = ZIGZAG;
    for k in 0..places.min(64) {
        let place = order[k] as usize;
        block[place] = coefficient(levels[k], reading::at_or(quantizer, k, 0));
    }
}

// The eight outputs of a line from its halves. With halves that are arrays and `array::from_fn` a decode took 3 thousandths more.
fn joined(e: Four, o: Four) -> [i64; 8]
    requires { Within (2 ^ 56) (halves e o) }
    ensures { result ≡ joined e o }
{
    let Four(e0, e1, e2, e3) = e;
    let Four(o0, o1, o2, o3) = o;
    [
        e0 + o0,
        e1 + o1,
        e2 + o2,
        e3 + o3,
        e3 - o3,
        e2 - o2,
        e1 - o1,
        e0 - o0,
    ]
}

// The eight outputs of a line.
fn outputs(c: [i64; 8]) -> [i64; 8]
    requires { Within (2 ^ 40) c }
    ensures { result ≡ lines (at c) }
{
    let [c0, c1, c2, c3, c4, c5, c6, c7] = c;
    joined(even(c0, c2, c4, c6), odd(c1, c3, c5, c7))
}

// The eight inputs of the line that stands s apart from place i on.
fn line(block: &[i64; 64], i: usize, s: usize) -> [i64; 8]
    requires { (i + 7 * s < 64) × (s ≤ 8) }
    ensures { result ≡ list_of 8 (spaced block.now i s) }
{
    std::array::from_fn(|k| block[i + k * s])
}

// Eight values, to the places from i on. One by one: a copy of slices asks how far apart its two places lie.
fn put_row(block: &mut [i64; 64], i: usize, values: &[i64; 8])
    requires { i + 7 < 64 }
    ensures { block.new ≡ puts block.old (place i 1) (at values.now) 8 }
{
    for u in 0..8 {
        block[i + u] = values[u];
    }
}

// The row that starts at place i, each of its eight inputs replaced by the output at its place.
fn row(block: &mut [i64; 64], i: usize)
    requires { (Within (2 ^ 40) block.old) × (i + 7 < 64) }
    ensures { block.new ≡ rowed block.old i }
{
    let c = line(block, i, 1);
    let [c0, c1, c2, c3, c4, c5, c6, c7] = c;
    // Where all inputs but the first are 0, as in most rows of most blocks, the eight outputs are one.
    if (c1 | c2 | c3 | c4 | c5 | c6 | c7) == 0 {
        block[i..i + 8].fill(c0 * 11585);
    } else {
        put_row(block, i, &outputs(c));
    }
}

// The first pass: the rows of coefficients, each in its place.
fn rows(block: &mut [i64; 64])
    requires { (length block.old ≡ 64) × (Within (2 ^ 23) block.old) }
    ensures { block.new ≡ rows_of block.old }
{
    for y in 0..8 {
        row(block, 8 * y);
    }
}

// Column x's outputs, in steps of a sample.
fn store(steps: &mut [i32; 64], x: usize, sums: [i64; 8])
    requires { (x < 8) × (Within (2 ^ 57) sums) }
    ensures { steps.new ≡ puts steps.old (place x 8) (λ y. in_steps (at sums y)) 8 }
{
    for (y, sum) in sums.iter().enumerate() {
        steps[x + 8 * y] = in_steps(*sum);
    }
}

// Column x.
fn column(block: &[i64; 64], x: usize, steps: &mut [i32; 64])
    requires { (Within (2 ^ 40) block.now) × (x < 8) }
    ensures { steps.new ≡ columned block.now x steps.old }
{
    let c = line(block, x, 8);
    let [c0, c1, c2, c3, c4, c5, c6, c7] = c;
    // Where the lower four inputs are 0, as in most blocks, half of the products fall away.
    if (c4 | c5 | c6 | c7) == 0 {
        store(steps, x, outputs([c0, c1, c2, c3, 0, 0, 0, 0]));
    } else {
        store(steps, x, outputs(c));
    }
}

// The second pass: the columns of what the first pass left, in steps of a sample. They are clamped by a loop of their own, which is
// compiled to vector code. One function for both passes would be told where to go on, which inputs to test, and what to store where: what
// they share is `line` and `outputs`.
fn columns(block: &[i64; 64], steps: &mut [i32; 64])
    requires { (Within (2 ^ 40) block.now) × (length steps.old ≡ 64) }
    ensures { steps.new ≡ columns_of block.now }
{
    for x in 0..8 {
        column(block, x, steps);
    }
}

// The samples of a block from its double sums in steps.
fn clamp(steps: &[i32; 64], out: &mut [u8])
    requires { 64 ≤ length out.old }
    ensures { out.new ≡ over (list_of 64 (λ k. to_byte (at steps.now k))) out.old }
{
    for (k, step) in steps.iter().enumerate() {
        out[k] = jpeg_color::to_byte(*step);
    }
}

// The samples where the first level alone counts: all 64 are one, as its coefficient's weight in each double sum is 11585^2.
fn flat(levels: &[i16; 64], quantizer: &[u8], out: &mut [u8])
    requires { 64 ≤ length out.old }
    ensures { out.new ≡ painted quantizer.now levels.now 1 out.old }
{
    let first = coefficient(levels[0], reading::at_or(quantizer, 0, 0));
    out[..64].fill(jpeg_color::to_byte(in_steps(first * 134212225)));
}

// The samples by the two passes.
fn transformed(levels: &[i16; 64], quantizer: &[u8], places: usize, out: &mut [u8])
    requires { 64 ≤ length out.old }
    ensures { out.new ≡ painted quantizer.now levels.now places out.old }
{
    let mut block = [0i64; 64];
    dequantize(levels, quantizer, places, &mut block);
    rows(&mut block);
    let mut steps = [0i32; 64];
    columns(&block, &mut steps);
    clamp(&steps, out);
}

// The 64 samples of a block of which the first `places` levels, in zigzag order, count and the others are taken as 0. They are
// written at the start of `out`; where it has fewer than 64 bytes it stays as it was.
#[tactic(auto, using(crate::proofs::Coefficients::painted_short))]
pub fn samples(levels: &[i16; 64], quantizer: &[u8], places: usize, out: &mut [u8])
    ensures { out.new ≡ painted quantizer.now levels.now places out.old }
{
    if out.len() < 64 {
        return;
    }
    if places == 1 {
        flat(levels, quantizer, out);
    } else {
        transformed(levels, quantizer, places, out);
    }
}
