// A row of pixels in colour whose chroma samples serve two pixels each (the rules' 'Samples, places, colour'): what a chroma sample adds
// to luma is worked out once and then spread over its two pixels. Any number of pixels and any lists may come in: where a list or the
// buffer is too short for so many, the buffer stays as it was. The test is made once a row of an MCU.
#![tactic(auto)]

ghost use Rattle.std.specs.Prelude.{◌≡◌, ◌≤◌, ◌<◌, ◌/◌, ℕ, ℤ, nat_abs, pos, ◌+ℤ◌, length};
ghost use Rattle.reading.specs.Colour.{to_byte};
ghost use Rattle.jpeg_render_row.specs.Drawn.{pixels};
ghost use Rattle.jpeg_render_pairs.specs.Parts.{First, Twice, summed, TintFits};
ghost use Rattle.jpeg_render_pairs.specs.Tinted.{tinted};

// The part of pixel i, which two pixels side by side have.
fn part_of(parts: &[i16; 8], i: usize) -> i16
    requires { i < 16 }
    ensures { Twice parts.now i result }
{
    parts[i / 2]
}

// Each of 8 parts for two pixels.
fn twice(parts: &[i16; 8]) -> [i16; 16]
    ensures { First (Twice parts.now) 16 result }
{
    std::array::from_fn(|i| part_of(parts, i))
}

// What each of 8 chroma samples, or pairs of them, adds to luma in one channel, for two pixels each. A call is a loop that writes one
// list, and a part is kept in 16 bits: so it is compiled to vector code. Tried, `array::from_fn`: the proof did not close, since nothing
// is found of what a closure promises that comes as a parameter.
fn parts<F: Fn(usize) -> i32>(part: F) -> [i16; 16]
    requires called { (j : ℕ) → j < 8 → F.pre part j }
    requires small { (j : ℕ) → j < 8 → (x : ℤ) → F.post part j x → nat_abs x ≤ 1024 }
    ensures { First (λ i x. F.post part (i / 2) x) 16 result }
{
    let mut parts = [0i16; 8];
    for j in 0..8 {
        parts[j] = part(j) as i16;
    }
    twice(&parts)
}

// A sample: luma and what the chroma samples add to it, clamped. Both stay in 16 bits, which makes the loop over pixels quick.
#[tactic(auto, unfolding(reading::specs::Colour::to_byte))]
fn with_luma(y: u8, part: i16) -> u8
    requires { nat_abs part ≤ 1024 }
    ensures { result ≡ to_byte (pos y +ℤ part) }
{
    jpeg_color::to_byte(y as i16 + part)
}

// Pixels in colour from their luma samples and what is added to them. Tried, a slice for each pixel by `chunks_exact_mut`: 4:2:0 is drawn
// with twice the instructions.
fn tint(
    luma: &[u8; 32],
    reds: &[i16; 16],
    greens: &[i16; 16],
    blues: &[i16; 16],
    n: usize,
    out: &mut [u8],
)
    requires { TintFits reds.now greens.now blues.now out.old n }
    ensures { out.new ≡ pixels (summed luma.now reds.now greens.now blues.now) 3 0 n out.old }
{
    for i in 0..n {
        let y = luma[i];
        out[i * 3] = with_luma(y, reds[i]);
        out[i * 3 + 1] = with_luma(y, greens[i]);
        out[i * 3 + 2] = with_luma(y, blues[i]);
    }
}

// The first n pixels, at the start of the buffer: pixel i has luma sample i, and of each chroma channel sample i / 2. That n is small is
// tested before the room: then n * 3 does not wrap.
pub fn tinted(luma: &[u8; 32], cb: &[u8], cr: &[u8], n: usize, out: &mut [u8])
    ensures { out.new ≡ tinted luma.now cb.now cr.now n out.old }
{
    if cb.len() < 8 || cr.len() < 8 || 16 < n || out.len() < n * 3 {
        return;
    }
    let reds = parts(|j| jpeg_color::red_part(cr[j]));
    let greens = parts(|j| jpeg_color::green_part(cb[j], cr[j]));
    let blues = parts(|j| jpeg_color::blue_part(cb[j]));
    tint(luma, &reds, &greens, &blues, n, out);
}
