// The header (the rules' 'From SOI to SOS'): the marker segments before the coded bytes give a record, or a refusal. A state goes from
// step to step by value; the case in it says what is read next, a marker or the tables of a segment; jpeg_header_state has what each
// segment makes of it. Each function equals the definition that its contract names. The steps need no allowance: what is left of the
// file falls with each, and the proof of `header` says so.
#![tactic(auto)]

ghost use Rattle.std.specs.Prelude.{◌≡◌, ◌≤◌, length};
ghost use Rattle.reading.specs.Header.{marker, step, opens, header};
ghost use Rattle.reading.specs.Code.Heads.{headed};
ghost use Rattle.reading.specs.Comments.{text_at, at_comment, comments, sought};
ghost use Rattle.reading.proofs.Frames.{Framed};
ghost use Rattle.reading.proofs.HeaderEnds.{Room};
ghost use Rattle.jpeg_header_state.specs.Segments.{stepped};
ghost use Rattle.jpeg_header.specs.Steps.{Inside, segment_at};

use jpeg_header_state::Step;
use reading::{Case, Header, Kind, Part, Record, Refusal};

// ---- one step

// A segment by the place where its body begins and the one where it ends.
#[derive(Clone, Copy)]
struct Segment {
    from: usize,
    end: usize,
}

// The segment whose marker stands at a place.
#[tactic(auto, unfolding(crate::specs::Steps::segment_at))]
fn segment_at(s: &[u8], at: usize) -> Result<Segment, Refusal>
    requires { at ≤ length s.now }
    ensures { result ≡ segment_at s.now at }
{
    if s.len() - at < 4 {
        return Err(Refusal::CutShort); // no room for a length
    }
    let size = jpeg_header_rules::word_at(s, at + 2);
    let end = at + 2 + size;
    if size < 2 || s.len() < end {
        return Err(Refusal::CutShort); // a length that leaves itself out, or one past the end
    }
    Ok(Segment { from: at + 4, end })
}

// The code behind a 255 chooses the step or the refusal: fill and 217 as they stand, any other behind the length of its segment and by its
// kind.
#[tactic(auto, unfolding(reading::specs::Header::stop_if, jpeg_header_state::specs::Segments::stepped, crate::specs::Steps::segment_at))]
fn marker(s: &[u8], colour: bool, state: Header) -> Result<Step, Refusal>
    requires { (state.at ≤ length s.now) × Framed state }
    ensures { result ≡ stepped (marker s.now colour state) }
{
    let at = state.at;
    if s.len() - at < 2 || s[at] != 255 {
        return Err(Refusal::Malformed);
    }
    let code = s[at + 1];
    if code == 255 {
        return Ok(Step::More(state.moved(at + 1, Case::Marker))); // fill
    }
    if code == 217 {
        return Err(Refusal::Malformed); // the end, wherever it stands
    }
    let Segment { from, end } = segment_at(s, at)?;
    let body = &s[from..end];
    match Kind::from(code) {
        Kind::Quants => jpeg_header_state::tables(state, from, end, Case::Quantizers(end)),
        Kind::Tables => jpeg_header_state::tables(state, from, end, Case::Huffman(end)),
        Kind::Frames => jpeg_header_state::frame(body, state, end),
        Kind::Scans => jpeg_header_state::scan(body, colour, state, end),
        Kind::Intervals => jpeg_header_state::interval(body, state, end),
        Kind::Skips => Ok(Step::More(state.moved(end, Case::Marker))),
        Kind::Others => Err(Refusal::Unsupported),
    }
}

#[tactic(auto, using(jpeg_header_state::proofs::Segments::in_segment_lem, crate::proofs::Run::window_room))]
fn step(s: &[u8], colour: bool, state: Header) -> Result<Step, Refusal>
    requires { Inside (length s.now) state × Framed state }
    ensures { result ≡ stepped (step s.now colour state) }
{
    let at = state.at;
    match state.case {
        Case::Marker => marker(s, colour, state),
        Case::Quantizers(end) => jpeg_header_state::quantizer(&s[at..end], state, end),
        Case::Huffman(end) => jpeg_header_state::huffman(&s[at..end], state, end),
    }
}

// The file opens 255 216.
fn opens(s: &[u8]) -> bool
    ensures { result ≡ opens s.now }
{
    matches!(s, [255, 216, ..])
}

// The header of a file, limits set aside.
pub fn header(s: &[u8], colour: bool) -> Result<Record, Refusal>
    ensures { result ≡ headed (header s.now colour) }
{
    if !opens(s) {
        return Err(Refusal::Malformed);
    }
    let mut state = Header::fresh();
    loop {
        match step(s, colour, state)? {
            Step::More(next) => state = next,
            Step::Done(found) => return Ok(found),
        }
    }
}

// ---- comments

// The marker of a comment is read next.
fn at_comment(s: &[u8], state: Header) -> bool
    requires { state.at ≤ length s.now }
    ensures { result ≡ at_comment s.now state.at state.case }
{
    matches!(state.case, Case::Marker) && jpeg_header_rules::byte_at(s, state.at + 1) == 254
}

// The text of the segment whose marker stands at a place.
fn text_at(s: &[u8], at: usize) -> Part
    requires { Room s.now at }
    ensures { result ≡ text_at s.now at }
{
    Part {
        at: at + 4,
        length: jpeg_header_rules::word_at(s, at + 2) - 2,
    }
}

// Comment i of those before the scan, limits set aside. The steps are the header's; those that go over a comment are counted.
pub fn comment(s: &[u8], i: usize) -> Option<Part>
    ensures { result ≡ sought (comments s.now) i }
{
    if !opens(s) {
        return None;
    }
    let mut state = Header::fresh();
    let mut before = i;
    while let Ok(Step::More(next)) = step(s, false, state) {
        if at_comment(s, state) {
            let Some(fewer) = before.checked_sub(1) else {
                return Some(text_at(s, state.at));
            };
            before = fewer;
        }
        state = next;
    }
    None
}
