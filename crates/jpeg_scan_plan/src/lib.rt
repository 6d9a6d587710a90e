// The numbers that a scan is read by, and what stands between its blocks (the rules' 'MCUs, restarts, end'): the channel of a block, the
// restart before an MCU, the end. Every reader of a scan goes by these; none of them reads a block.
#![tactic(auto)]

ghost use Rattle.std.specs.Prelude.{◌≡◌, true, ◌+◌, ◌%◌, take, drop};
ghost use Rattle.reading.specs.Bits.{padded, fulls, mark};
ghost use Rattle.reading.specs.Layout.{channel_in, due_before, restart_before};
ghost use Rattle.reading.specs.Tables.{shape_of, chosen};
ghost use Rattle.reading.specs.Code.Mcus.{sampled};
ghost use Rattle.jpeg_scan_plan.specs.Plans.{four, digits, plan_for};
ghost use Rattle.jpeg_scan_plan.specs.Marks.{looked, closes, restarted, broke_in};

use reading::{Bits, Break, Fault, Frame, Mcu, Record, ScanCursor};
use std::array;

// The numbers that a scan is read by, gathered once from the record: the first coded byte, where each channel's tables stand, the
// channels of the blocks of an MCU as the digits of a number of base 4, the first block's last, how many blocks an MCU has, the restart
// interval, and how many blocks there are. The channels are digits: tried, a list of ten costs 2 to 3 hundredths of inspect and one
// of decode. The interval is 0, and no Option, where there are no restarts: that is the rules' own word for it (`due_before`).
#[derive(Clone, Copy)]
pub struct Plan {
    pub start: usize,
    pub dcs: [usize; 4],
    pub acs: [usize; 4],
    pub quants: [usize; 4],
    pub order: usize,
    pub per: usize,
    pub interval: usize,
    pub blocks: usize,
}

// The place of each of four channels' table; 0 where there is none, as in the record's tables.
fn chosen(places: [usize; 4], ids: [usize; 4]) -> [usize; 4]
    ensures { result ≡ four (chosen places ids) }
{
    array::from_fn(|c| reading::chosen(&places, &ids, c))
}

// The channel of block j of an MCU: the blocks of each channel stand behind those of the channels before it.
#[tactic(auto, using(crate::proofs::Standing::passing))]
fn channel_in(frame: Frame, j: usize) -> usize
    requires { sampled frame ≡ true }
    ensures { result ≡ channel_in (shape_of frame).factors j }
{
    let mut left = j;
    for c in 0..frame.channels {
        let blocks = frame.across[c] * frame.down[c];
        if left < blocks {
            return c;
        }
        left -= blocks;
    }
    frame.channels
}

// The channel of each block of an MCU, found once for each scan: ten digits of base 4.
#[tactic(auto, using(crate::proofs::Standing::digits_few))]
fn order(frame: Frame) -> usize
    requires { sampled frame ≡ true }
    ensures { result ≡ digits (channel_in (shape_of frame).factors) 0 10 }
{
    let mut list = 0;
    for j in (0..10).rev() {
        list = 4 * list + channel_in(frame, j) % 4;
    }
    list
}

impl Plan {
    // the plan of a record's scan; none where the record has numbers by which no scan can be read: every record that a header gives has one
    #[tactic(auto, using(crate::proofs::Standing::gathered))]
    pub fn of(s: &[u8], found: Record) -> Option<Self>
        ensures { result ≡ plan_for s.now found }
    {
        if s.len() < found.start {
            return None;
        }
        let mcu = Mcu::of(found.frame)?;
        Some(Self {
            start: found.start,
            dcs: chosen(found.tables.dcs, found.dcids),
            acs: chosen(found.tables.acs, found.acids),
            quants: chosen(found.tables.quants, found.frame.qids),
            order: order(found.frame),
            per: mcu.blocks,
            interval: found.interval,
            blocks: found.blocks,
        })
    }
}

// The channel of the next block, by what is left of a plan's digits.
pub fn channel(order: usize) -> usize
    ensures { result ≡ order % 4 }
{
    order % 4
}

// The unread bits of the current byte are all ones.
#[tactic(auto, using(crate::proofs::Marks::full_over))]
fn full(b: Bits) -> bool
    ensures { result ≡ padded b }
{
    b.left <= 8 && usize::from(b.byte) % (1 << b.left) == (1 << b.left) - 1
}

// The first place from `at` on that does not hold 255: behind fill bytes and a marker's own 255 (the rules' 'Fill bytes inside scans').
// A loop: tried, `take_while` costs 7 hundredths of inspect and 4 of decode, though a scan with no restarts comes here once.
#[tactic(auto, using(crate::proofs::Marks::runs))]
fn past_full(s: &[u8], at: usize) -> usize
    ensures { result ≡ at + fulls (drop at s.now) }
{
    for i in at..s.len() {
        if s[i] != 255 {
            return i;
        }
    }
    at.max(s.len())
}

// A marker: padding, any number of fill bytes, then 255 and a code.
#[tactic(auto, using(crate::proofs::Marks::marks))]
fn marker(s: &[u8], b: Bits, code: usize) -> Option<usize>
    ensures { looked result ≡ mark s.now code b }
{
    if !full(b) {
        return None;
    }
    let place = past_full(s, b.at);
    if place == b.at || s.len() <= place || s[place] as usize != code {
        return None;
    }
    Some(place + 1)
}

// After the last block: the marker 217, and no byte behind it.
#[tactic(auto, using(crate::proofs::Marks::end_missing, crate::proofs::Marks::end_found))]
pub fn at_end(s: &[u8], b: Bits) -> bool
    ensures { result ≡ closes s.now b }
{
    marker(s, b, 217) == Some(s.len())
}

// A restart is due before MCU m > 0 with m a multiple of the interval; 0 is none.
pub fn restart_due(m: usize, interval: usize) -> bool
    ensures { result ≡ due_before interval m }
{
    m != 0 && interval != 0 && m % interval == 0
}

// The code of the restart marker before MCU m.
pub fn restart_code(m: usize, interval: usize) -> usize
    ensures { result ≡ restart_before interval m }
{
    if m < interval || interval == 0 {
        return 208;
    }
    208 + (m / interval - 1) % 8
}

// Before MCU m: where a restart is due, its marker, and the predictors become 0.
#[tactic(auto, using(crate::proofs::Marks::restarts))]
pub fn restart(
    s: &[u8],
    from: ScanCursor<Bits>,
    m: usize,
    interval: usize,
) -> Result<ScanCursor<Bits>, Fault>
    ensures { result ≡ restarted s.now interval m from }
{
    if !restart_due(m, interval) {
        return Ok(from);
    }
    let at = marker(s, from.bits, restart_code(m, interval)).ok_or(Fault::Broken)?;
    Ok(ScanCursor {
        bits: Bits::first(at),
        predictors: [0; 4],
        ..from
    })
}

// A fault in the MCU before which a scan stood at `before`, once its restart was done: `here` is where the block that broke was to be
// read. The turn of an MCU's first block begins before the restart, that of a later one where the block before it ended.
#[tactic(auto, using(crate::proofs::Marks::broke_first, crate::proofs::Marks::broke_later))]
pub fn broke_in(before: ScanCursor<Bits>, here: ScanCursor<Bits>, f: Fault) -> Break
    ensures { result ≡ broke_in before here f }
{
    if here.done == before.done {
        return before.broke(f);
    }
    here.broke(f)
}

// The quantizer at a place: its 64 bytes, or those that there are.
pub fn quantizer(t: &[u8], at: usize) -> &[u8]
    ensures { result.now ≡ take 64 (drop at t.now) }
{
    let rest = &t[at.min(t.len())..];
    &rest[..rest.len().min(64)]
}
