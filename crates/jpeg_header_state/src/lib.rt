// What each segment before the coded bytes makes of the header's state (the rules' 'From SOI to SOS'): a table more, the frame, the
// restart interval, or the record where the scan is met; or a refusal. Any state may come in: the tests that a state of the header
// itself always passes are made here, once a segment or a table, so that no place and no size wraps.
#![tactic(auto)]

ghost use Rattle.std.specs.Prelude.{◌≡◌, true, false, Some, ◌+◌, ◌<◌, ◌≤◌, eqb, length, MatchOption, MatchResult};
ghost use Rattle.reading.specs.declared.Refusal.TheVariants.{Malformed};
ghost use Rattle.reading.specs.Code.Mcus.{measured};
ghost use Rattle.reading.specs.Header.{more, stop_if, moved, quantizer, huffman, frame, interval, record_of, scan_segment};
ghost use Rattle.jpeg_header_state.specs.Segments.{stepped, in_segment, numbers_fit, behind_frame};

use reading::{Budget, Case, Frame, Header, Limits, Mcu, Record, Refusal};

// Where a step leads: to the next state, or, where the scan is met, to the record.
#[derive(Clone, Copy)]
pub enum Step {
    More(Header),
    Done(Record),
}

// The bytes of a segment, the state and the segment's end go in one by one: a struct of them would hold a slice, and each clause would
// have to say at which moment it reads it (`self.entry.body.now`).

// ---- the tables of a segment, one at a step; the body is what is left of the segment

// a segment of tables holds one or more
#[tactic(auto, unfolding(reading::specs::Header::stop_if, crate::specs::Segments::stepped))]
pub fn tables(state: Header, from: usize, end: usize, next: Case) -> Result<Step, Refusal>
    ensures { result ≡ stepped (stop_if (eqb from end) Malformed (more (moved state from next))) }
{
    if from == end {
        return Err(Refusal::Malformed);
    }
    Ok(Step::More(state.moved(from, next)))
}

// Whether the tables end here. What is left of a segment ends with it: a table that lies past its end is malformed.
fn all_read(body: &[u8], state: Header, end: usize) -> Result<bool, Refusal>
    ensures { MatchResult result
        (λ all. (state.at + length body.now ≤ end) × (all ≡ eqb state.at end))
        (λ x. (end < state.at + length body.now) × (x ≡ Malformed)) }
{
    if end < state.at || end - state.at < body.len() {
        return Err(Refusal::Malformed);
    }
    Ok(state.at == end)
}

#[tactic(auto, unfolding(reading::specs::Header::stop_if, crate::specs::Segments::stepped, crate::specs::Segments::in_segment))]
pub fn quantizer(body: &[u8], state: Header, end: usize) -> Result<Step, Refusal>
    ensures { result ≡ stepped (in_segment body.now state end (quantizer body.now state end)) }
{
    if all_read(body, state, end)? {
        return Ok(Step::More(state.moved(end, Case::Marker)));
    }
    if !jpeg_header_rules::quantizer_fits(body) {
        return Err(Refusal::Malformed);
    }
    let id = jpeg_header_rules::byte_at(body, 0);
    let mut next = state;
    next.at += 65;
    next.tables.quants[id] = state.at + 1; // in place of an earlier one with its id
    Ok(Step::More(next))
}

#[tactic(auto, unfolding(reading::specs::Header::stop_if, crate::specs::Segments::stepped, crate::specs::Segments::in_segment))]
pub fn huffman(body: &[u8], state: Header, end: usize) -> Result<Step, Refusal>
    ensures { result ≡ stepped (in_segment body.now state end (huffman body.now state end)) }
{
    if all_read(body, state, end)? {
        return Ok(Step::More(state.moved(end, Case::Marker)));
    }
    if !jpeg_header_rules::table_fits(body) {
        return Err(Refusal::Malformed);
    }
    let first = jpeg_header_rules::byte_at(body, 0);
    let mut next = state;
    next.at += 17 + jpeg_header_rules::symbols(body);
    if first / 16 == 0 {
        next.tables.dcs[first % 16] = state.at + 1;
    } else {
        next.tables.acs[first % 16] = state.at + 1;
    }
    Ok(Step::More(next))
}

// ---- the segments that are read at one step

#[tactic(auto, unfolding(reading::specs::Header::stop_if, crate::specs::Segments::stepped))]
pub fn frame(body: &[u8], state: Header, end: usize) -> Result<Step, Refusal>
    ensures { result ≡ stepped (frame body.now state end) }
{
    if 0 < state.frame.channels {
        return Err(Refusal::Malformed); // a second frame
    }
    if !jpeg_header_rules::frame_known(body) {
        return Err(Refusal::Unsupported); // precision or count of channels
    }
    if body.len() != 6 + 3 * jpeg_header_rules::byte_at(body, 5) {
        return Err(Refusal::Malformed); // a length that is not the channels'
    }
    if !jpeg_header_rules::frame_fits(body) {
        return Err(Refusal::Unsupported); // sides, sampling or ids
    }
    Ok(Step::More(state.with_frame(end, jpeg_header_rules::frame_of(body))))
}

// the last one counts
#[tactic(auto, unfolding(reading::specs::Header::stop_if, crate::specs::Segments::stepped))]
pub fn interval(body: &[u8], state: Header, end: usize) -> Result<Step, Refusal>
    ensures { result ≡ stepped (interval body.now state end) }
{
    if body.len() != 2 {
        return Err(Refusal::Malformed);
    }
    let word = jpeg_header_rules::word_at(body, 0);
    Ok(Step::More(state.with_interval(end, word)))
}

// ---- the scan, and the record that it gives

// The MCU of a frame that is read; none where its sides or its sampling are none that a frame has. Where there is one, no size of the record
// wraps.
#[tactic(auto, using(crate::proofs::Numbers::sides))]
fn mcu_of(frame: Frame) -> Option<Mcu>
    ensures { MatchOption result
        (numbers_fit frame ≡ false)
        (λ mcu. (numbers_fit frame ≡ true) × (Some mcu ≡ measured frame)) }
{
    if !reading::within(1, Limits::SIDE, frame.width)
        || !reading::within(1, Limits::SIDE, frame.height)
    {
        return None;
    }
    Mcu::of(frame)
}

// The two table ids of a channel are the halves of a byte of the scan. The blocks of a picture are its MCUs across, times those down, times
// the blocks of one.
#[tactic(auto, using(crate::proofs::Numbers::sizes))]
fn record_of(body: &[u8], colour: bool, state: Header, mcu: Mcu, end: usize) -> Record
    requires { (numbers_fit state.frame ≡ true) × (Some mcu ≡ measured state.frame) }
    ensures { result ≡ record_of body.now colour state end }
{
    let frame = state.frame;
    let ids = jpeg_header_rules::each(body, frame.channels, 2, 2);
    let across = reading::mcus(frame.width, mcu.across);
    let down = reading::mcus(frame.height, mcu.down);
    let blocks = across * down * mcu.blocks;
    let output = frame.width * frame.height * frame.channels;
    Record {
        frame,
        tables: state.tables,
        dcids: jpeg_header_rules::high_halves(ids),
        acids: jpeg_header_rules::low_halves(ids),
        interval: state.interval,
        start: end,
        blocks,
        scratch: 64 * blocks,
        output,
        work: Budget::BLOCK * (blocks as u64) + output as u64,
        colour,
    }
}

#[tactic(auto, unfolding(reading::specs::Header::stop_if, crate::specs::Segments::stepped, crate::specs::Segments::behind_frame))]
pub fn scan(body: &[u8], colour: bool, state: Header, end: usize) -> Result<Step, Refusal>
    ensures { result ≡ stepped (behind_frame state (scan_segment body.now colour state end)) }
{
    let frame = state.frame;
    if frame.channels == 0 {
        return Err(Refusal::Malformed); // no frame
    }
    let mcu = mcu_of(frame).ok_or(Refusal::Unsupported)?; // sides or sampling that no frame has
    if !jpeg_header_rules::scan_known(body, frame.channels) {
        return Err(Refusal::Unsupported); // length, count of components or last three bytes
    }
    if !jpeg_header_rules::in_order(body, &frame.ids) {
        return Err(Refusal::Malformed); // component ids
    }
    if !jpeg_header_rules::selected(body) {
        return Err(Refusal::Unsupported); // table ids
    }
    let found = record_of(body, colour, state, mcu, end);
    if !jpeg_header_rules::complete(found) {
        return Err(Refusal::Malformed); // a table that is absent
    }
    Ok(Step::Done(found))
}
