// The colour of one pixel: Y, Cb and Cr to red, green and blue, with floor division and clamping to 0..255 (the rules' 'Samples,
// places, colour'). A chroma sample's difference from 128 is a signed number, and `>> 16` divides by 65536 and rounds down, below 0
// too. Whole multiples of 65536 pass by the division: so luma is added behind it, and the factors before it fit 16 bits, which makes
// loops over pixels quick.
#![tactic(auto)]

ghost use Rattle.std.specs.Prelude.{◌≡◌, ◌≤◌, ℤ, pos, nat_abs, ◌+ℤ◌, ◌-ℤ◌};
ghost use Rattle.reading.specs.Colour.{to_byte, red, green, blue, floored};
ghost use Rattle.jpeg_color.specs.Parts.{red_part, green_part, blue_part};

use reading::Sample;

// A number of 32 bits, clamped to 0..255.
#[tactic(auto, using(crate::proofs::Clamps::clamps), unfolding(reading::specs::Colour::to_byte))]
fn clamped(v: i32) -> u8
    ensures { result ≡ to_byte v }
{
    v.clamp(Sample::LEAST as i32, Sample::MOST as i32) as u8
}

// A whole number, clamped to 0..255. It may be of any type that 32 bits hold: a loop that clamps numbers of 16 bits stays in them, and a
// vector has twice as many of those.
pub fn to_byte<T: Into<i32>>(v: T) -> u8
    ensures { (z : ℤ) × T.converts v z × (result ≡ to_byte z) }
{
    clamped(v.into())
}

// What a chroma sample adds to luma in red: 91881 is 65536 + 26345.
pub fn red_part(cr: u8) -> i32
    ensures { (result ≡ red_part cr) × (nat_abs result ≤ 1024) }
{
    let d = cr as i32 - 128;
    d + ((26345 * d + 32768) >> 16)
}

// The difference of two numbers, divided by 65536 and rounded down once: rounded apart the two would give another green.
fn divided(p: i32, q: i32) -> i32
    requires { (nat_abs p ≤ 16777216) × (nat_abs q ≤ 16777216) }
    ensures { result ≡ floored (p -ℤ q) 65536 }
{
    (p - q) >> 16
}

// What both add in green: -46802 is 18734 - 65536.
pub fn green_part(cb: u8, cr: u8) -> i32
    ensures { (result ≡ green_part cb cr) × (nat_abs result ≤ 1024) }
{
    let b = cb as i32 - 128;
    let d = cr as i32 - 128;
    -d + divided(18734 * d + 32768, 22554 * b)
}

// What a chroma sample adds in blue: 116130 is 2 x 65536 - 14942.
pub fn blue_part(cb: u8) -> i32
    ensures { (result ≡ blue_part cb) × (nat_abs result ≤ 1024) }
{
    let d = cb as i32 - 128;
    2 * d + ((32768 - 14942 * d) >> 16)
}

// A sample: luma and what the chroma samples add to it, clamped.
fn with_luma(y: u8, part: i32) -> u8
    requires { nat_abs part ≤ 1024 }
    ensures { result ≡ to_byte (pos y +ℤ part) }
{
    to_byte(y as i32 + part)
}

#[tactic(auto, using(crate::proofs::Luma::colours))]
pub fn red(y: u8, cr: u8) -> u8
    ensures { result ≡ red y cr }
{
    with_luma(y, red_part(cr))
}

#[tactic(auto, using(crate::proofs::Luma::colours))]
pub fn green(y: u8, cb: u8, cr: u8) -> u8
    ensures { result ≡ green y cb cr }
{
    with_luma(y, green_part(cb, cr))
}

#[tactic(auto, using(crate::proofs::Luma::colours))]
pub fn blue(y: u8, cb: u8) -> u8
    ensures { result ≡ blue y cb }
{
    with_luma(y, blue_part(cb))
}
