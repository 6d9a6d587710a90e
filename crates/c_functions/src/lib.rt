// The calls for C: inspect, decode and the comments, on slices and numbers, the record as the 46 numbers of `c_record`; settle is in
// `c_settle`. In C a slice is a pointer and a length. Each contract is the call's own, through the flattening.
#![tactic(auto)]

ghost use Rattle.std.specs.Prelude.{◌≡◌};
ghost use Rattle.reading.specs.Calls.{inspect};
ghost use Rattle.c_functions.specs.Flat.{inspected, flat_decoding, drawn, decoded, decode_flat, flat_part, flat_presence};
ghost use Rattle.reading.specs.Comments.{comment_part, has_comment};

use c_record::FlatRecord;
use reading::{Budget, Decoding, Inspection, Limits, Part, Presence};

// What C sees of an answer, here and below: C has no enum that holds a refusal, so `number` is 0 or the refusal's, `left` what is left of
// the budget, `block` and `place` are 0 but where a scan broke, and a yes or no is 1 or 0.
#[repr(C)]
#[derive(Clone, Copy)]
pub struct Inspected {
    pub number: usize,
    pub left: u64,
    pub block: usize,
    pub place: usize,
    pub found: FlatRecord,
}

impl From<Inspection> for Inspected {
    ghost from_gives = { λ seen numbers. numbers ≡ inspected seen };

    fn from(seen: Inspection) -> Self {
        let named = reading::place_named(seen.verdict);
        Self {
            number: usize::from(reading::number(seen.verdict)),
            left: seen.budget.left,
            block: named.block,
            place: named.place,
            found: FlatRecord::from(seen.found),
        }
    }
}

#[repr(C)]
#[derive(Clone, Copy)]
pub struct Decoded {
    pub number: usize,
    pub left: u64,
}

impl From<Decoding> for Decoded {
    ghost from_gives = { λ seen numbers. numbers ≡ flat_decoding seen };

    fn from(seen: Decoding) -> Self {
        Self {
            number: usize::from(reading::number(seen.verdict)),
            left: seen.budget.left,
        }
    }
}

// A part of the bytes: its place and its length.
#[repr(C)]
#[derive(Clone, Copy)]
pub struct FlatPart {
    pub at: usize,
    pub length: usize,
}

impl From<Part> for FlatPart {
    ghost from_gives = { λ part numbers. numbers ≡ flat_part part };

    fn from(part: Part) -> Self {
        Self {
            at: part.at,
            length: part.length,
        }
    }
}

#[repr(C)]
#[derive(Clone, Copy)]
pub struct FlatPresence {
    pub number: usize,
    pub left: u64,
    pub block: usize,
    pub place: usize,
    pub there: usize,
}

impl From<Presence> for FlatPresence {
    ghost from_gives = { λ seen numbers. numbers ≡ flat_presence seen };

    fn from(seen: Presence) -> Self {
        let named = reading::place_named(seen.verdict);
        Self {
            number: usize::from(reading::number(seen.verdict)),
            left: seen.budget.left,
            block: named.block,
            place: named.place,
            there: usize::from(seen.there),
        }
    }
}

// What a file holds.
#[unsafe(no_mangle)]
pub extern "C" fn tillsparrow_inspect(
    bytes: &[u8],
    colour: bool,
    input: usize,
    side: usize,
    output: usize,
    budget: u64,
) -> Inspected
    ensures { result ≡ inspected (inspect bytes.now colour (record { input = input; side = side; output = output }) (record { left = budget })) }
{
    let limits = Limits {
        input,
        side,
        output,
    };
    Inspected::from(jpeg::inspect(bytes, colour, limits, Budget::fresh(budget)))
}

// The picture and the block samples of a file whose record is given; any numbers may come in.
#[unsafe(no_mangle)]
pub extern "C" fn tillsparrow_decode(
    bytes: &[u8],
    found: FlatRecord,
    output: &mut [u8],
    scratch: &mut [u8],
    budget: u64,
) -> Decoded
    ensures { drawn result output.new scratch.new ≡ decoded (decode_flat bytes.now found output.old scratch.old (record { left = budget })) }
{
    Decoded::from(jpeg::decode(
        bytes,
        c_record::asked(found),
        output,
        scratch,
        Budget::fresh(budget),
    ))
}

// Where the text of comment i stands in the bytes.
#[unsafe(no_mangle)]
pub extern "C" fn tillsparrow_comment(bytes: &[u8], i: usize) -> FlatPart
    ensures { result ≡ flat_part (comment_part bytes.now i) }
{
    FlatPart::from(jpeg_comment::comment_part(bytes, i))
}

// Whether comment i is there, at inspect's price and with its numbers.
#[unsafe(no_mangle)]
pub extern "C" fn tillsparrow_has_comment(
    bytes: &[u8],
    i: usize,
    input: usize,
    side: usize,
    output: usize,
    budget: u64,
) -> FlatPresence
    ensures { result ≡ flat_presence (has_comment bytes.now i (record { input = input; side = side; output = output }) (record { left = budget })) }
{
    let limits = Limits {
        input,
        side,
        output,
    };
    FlatPresence::from(jpeg_comment::has_comment(bytes, i, limits, Budget::fresh(budget)))
}
