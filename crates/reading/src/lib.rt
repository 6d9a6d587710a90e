// What the code and the definitions of specs/ share: the types, their fresh values, the numbers that belong to them
// (prices, clamp bounds, limits), and the small questions that several crates ask: whether a number lies between two others, what
// stands at a place of a list, how many MCUs a side has and what an MCU holds.
#![tactic(auto)]

ghost use Rattle.std.specs.Prelude.{◌≡◌, cond, get_or};
ghost use Rattle.reading.specs.declared.Refusal.TheVariants.{Scan};
ghost use Rattle.reading.specs.declared.Unsettled.TheVariants.{Broke};
ghost use Rattle.reading.specs.Tests.{within};
ghost use Rattle.reading.specs.Block.{dc_taken, ac_taken};
ghost use Rattle.reading.specs.Tables.{chosen};
ghost use Rattle.reading.specs.Code.Mcus.{mcus_of, measured};
ghost use Rattle.reading.specs.Header.{opening, moved, with_frame, with_interval, no_record, kind_of};
ghost use Rattle.reading.specs.Bits.{first_bit};
ghost use Rattle.reading.specs.Code.Scans.{at_start, broke_at, nowhere, refusal_of};
ghost use Rattle.reading.specs.Calls.{fault_number, number_of, number, named_by, named};

// Whether a number lies between two others, both included: one word of the rules, which their definitions cite, and so one here.
pub fn within(least: usize, most: usize, n: usize) -> bool
    ensures { result ≡ within least most n }
{
    (least..=most).contains(&n)
}

// What stands at a place of a list, and another value behind its end. (Not by `get`: an Option of a reference has an address beside a byte,
// which the module for WebAssembly is not to keep in memory.)
pub fn at_or<T: Copy>(list: &[T], place: usize, other: T) -> T
    ensures { result ≡ get_or list.now place other }
{
    if place < list.len() {
        return list[place];
    }
    other
}

// The place that a list of places has for a channel, by the channel's id; 0 where it has none.
pub fn chosen(places: &[usize], ids: &[usize], channel: usize) -> usize
    ensures { result ≡ chosen places.now ids.now channel }
{
    at_or(places, at_or(ids, channel, 0), 0)
}

// Whether a block takes a symbol: as its first one a category 0..11; later the end, 16 zeros, or any run of zeros with a value of size
// 1..10. A table may list no others.
pub fn takes(first: bool, x: usize) -> bool
    ensures { result ≡ cond first (dc_taken x) (ac_taken x) }
{
    if first {
        x <= 11
    } else {
        x == 0 || x == 240 || within(1, 10, x % 16)
    }
}

// The MCUs across of a width and the largest sampling across, or down of a height and the largest sampling down: the ceiling of
// side / 8 factor. 0, and no Option, for a side or a factor that no frame has: such a side has no MCUs (`mcus_of`).
pub fn mcus(side: usize, factor: usize) -> usize
    ensures { result ≡ mcus_of side factor }
{
    if Limits::SIDE < side || !within(1, 4, factor) {
        return 0;
    }
    side.div_ceil(8 * factor)
}

// The bit place of a scan: the next byte of the file, the current byte, and how many of its low bits are unread.
#[derive(Clone, Copy, Debug, PartialEq, Eq)]
pub struct Bits {
    pub at: usize,
    pub byte: u8,
    pub left: u8,
}

impl Bits {
    // the place before the first bit of the byte at `at`
    pub fn first(at: usize) -> Self
        ensures { result ≡ first_bit at }
    {
        Self {
            at,
            byte: 0,
            left: 0,
        }
    }
}

// Each scan keeps the bit place, four predictors and the count of blocks done. The place is of a reader's own kind.
#[derive(Clone, Copy)]
pub struct ScanCursor<P> {
    pub bits: P,
    pub predictors: [i32; 4],
    pub done: usize,
}

impl ScanCursor<Bits> {
    // before the first block of a scan whose first coded byte is at `at`
    pub fn fresh(at: usize) -> Self
        ensures { result ≡ at_start at }
    {
        Self {
            bits: Bits::first(at),
            predictors: [0; 4],
            done: 0,
        }
    }

    // a fault in the turn that begins here: it names this block and this place
    pub fn broke(self, f: Fault) -> Break
        ensures { result ≡ broke_at self f }
    {
        Break {
            fault: f,
            block: self.done,
            place: self.bits.at,
        }
    }
}

// Why a scan broke.
#[derive(Clone, Copy, Debug, PartialEq, Eq)]
pub enum Fault {
    // the bytes ran out
    RanOut,
    // a 255 that is followed by neither 0 nor the end
    Bare,
    // sixteen bits that are no code
    NoCode,
    // anything else
    Broken,
}

impl Fault {
    // the number of the rules
    pub fn number(self) -> u8
        ensures { result ≡ fault_number self }
    {
        match self {
            Self::RanOut => 3,
            Self::Bare => 10,
            Self::NoCode => 11,
            Self::Broken => 4,
        }
    }
}

// Why and where a scan broke: the number of the block, or the block count at the final marker, and the first byte that was not yet
// taken when its reading began, before any restart.
#[derive(Clone, Copy, Debug, PartialEq, Eq)]
pub struct Break {
    pub fault: Fault,
    pub block: usize,
    pub place: usize,
}

impl Break {
    // of a record that no header gives, whose scan is not read
    pub fn nowhere() -> Self
        ensures { result ≡ nowhere }
    {
        Self {
            fault: Fault::Broken,
            block: 0,
            place: 0,
        }
    }
}

// A refusal, by the rule that gave it. One number can have several rules, each with its price and its place in the order: 2 is
// OverBudget, which takes nothing, and behind the header WorkOverBudget; 3 is CutShort in the header and 4 Malformed, and both are a
// scan's too, which says where it broke.
#[derive(Clone, Copy, Debug, PartialEq, Eq)]
pub enum Refusal {
    TooLong,
    OverBudget,
    CutShort,
    Malformed,
    Unsupported,
    TooLarge,
    WorkOverBudget,
    ShortRoom,
    NotItsRecord,
    NoEndCode,
    Scan(Break),
}

// What a marker code asks for.
#[derive(Clone, Copy)]
pub enum Kind {
    Quants,
    Tables,
    Frames,
    Scans,
    Intervals,
    Skips,
    Others,
}

impl From<u8> for Kind {
    ghost from_gives = { λ code kind. kind ≡ kind_of code };

    fn from(code: u8) -> Self {
        match code {
            192..=193 => Self::Frames,
            196 => Self::Tables,
            218 => Self::Scans,
            219 => Self::Quants,
            221 => Self::Intervals,
            224..=239 | 254 => Self::Skips,
            _ => Self::Others,
        }
    }
}

// What the header reads next: a marker, or the tables of a segment that ends at the place given.
#[derive(Clone, Copy, Debug, PartialEq, Eq)]
pub enum Case {
    Marker,
    Quantizers(usize),
    Huffman(usize),
}

// The frame: its sides, one to four channels, and for each channel its sampling across and down, its id and its quantizer's, 0 behind the
// last one. The struct that C sees and the theorems have such a list for each of these, and not one of channels; so have Tables and Record.
// All zero where no frame was read, and no Option: so the rules have it in the header's state and in the record of a refusal (`no_frame`).
#[derive(Clone, Copy, Debug, Default, PartialEq, Eq)]
pub struct Frame {
    pub width: usize,
    pub height: usize,
    pub channels: usize,
    pub across: [usize; 4],
    pub down: [usize; 4],
    pub ids: [usize; 4],
    pub qids: [usize; 4],
}

// What the MCUs of a frame are: the largest sampling across and down, which an MCU is 8 times wide and high, and how many blocks it has.
#[derive(Clone, Copy)]
pub struct Mcu {
    pub across: usize,
    pub down: usize,
    pub blocks: usize,
}

impl Mcu {
    // the MCUs of a frame; none for sampling that no frame has: more than four channels, a factor outside 1 to 4, or more than ten
    // blocks
    pub fn of(frame: Frame) -> Option<Self>
        ensures { result ≡ measured frame }
    {
        let channels = frame.channels;
        if !within(1, 4, channels) {
            return None;
        }
        let mut wide = 0usize;
        let mut high = 0usize;
        let mut blocks = 0usize;
        for c in 0..channels {
            let h = frame.across[c];
            let v = frame.down[c];
            if !within(1, 4, h) || !within(1, 4, v) {
                return None;
            }
            wide = wide.max(h);
            high = high.max(v);
            blocks += h * v;
        }
        if 10 < blocks {
            return None;
        }
        Some(Self {
            across: wide,
            down: high,
            blocks,
        })
    }
}

// Where each table starts, by its id: quantizers, DC and AC tables. 0 where there is none: so the rules have it of a table that is absent,
// and the records that C and the theorems see hold these numbers, so they are no Options.
#[derive(Clone, Copy, Debug, Default, PartialEq, Eq)]
pub struct Tables {
    pub quants: [usize; 4],
    pub dcs: [usize; 4],
    pub acs: [usize; 4],
}

// The header's state: the next byte, the case, the tables, the frame and the restart interval.
#[derive(Clone, Copy)]
pub struct Header {
    pub at: usize,
    pub case: Case,
    pub tables: Tables,
    pub frame: Frame,
    pub interval: usize,
}

// What inspect finds: the frame; the tables that stand when the scan is met; for each channel the ids of its Huffman tables (0 behind
// the last channel); the first coded byte; the sizes and the work that follow from the frame.
#[derive(Clone, Copy, Debug, Default, PartialEq, Eq)]
pub struct Record {
    pub frame: Frame,
    pub tables: Tables,
    pub dcids: [usize; 4],
    pub acids: [usize; 4],
    pub interval: usize,
    pub start: usize,
    pub blocks: usize,
    pub scratch: usize,
    pub output: usize,
    pub work: u64,
    pub colour: bool,
}

impl Header {
    // the state behind the file's first two bytes
    pub fn fresh() -> Self
        ensures { result ≡ opening }
    {
        Self {
            at: 2,
            case: Case::Marker,
            tables: Tables::default(),
            frame: Frame::default(),
            interval: 0,
        }
    }

    // the same tables, frame and interval at another place
    pub fn moved(self, at: usize, case: Case) -> Self
        ensures { result ≡ moved self at case }
    {
        Self { at, case, ..self }
    }

    // behind a frame's segment
    pub fn with_frame(self, at: usize, frame: Frame) -> Self
        ensures { result ≡ with_frame self at frame }
    {
        Self {
            at,
            case: Case::Marker,
            frame,
            ..self
        }
    }

    // behind a segment that sets the restart interval
    pub fn with_interval(self, at: usize, interval: usize) -> Self
        ensures { result ≡ with_interval self at interval }
    {
        Self {
            at,
            case: Case::Marker,
            interval,
            ..self
        }
    }
}

impl Record {
    // the record of a refusal: the rules' word for a record of zeros
    pub fn none() -> Self
        ensures { result ≡ no_record }
    {
        Self::default()
    }
}

// The most bytes of input, the longest side, and the most samples of blocks or of the picture that a caller takes.
#[derive(Clone, Copy, Debug, PartialEq, Eq)]
pub struct Limits {
    pub input: usize,
    pub side: usize,
    pub output: usize,
}

impl Limits {
    // the longest side that a frame can name
    pub const SIDE: usize = 65535;
    // the bytes of each of the program's three buffers
    pub const BUFFER: usize = 65536;
    // the shortest input whose price, 2n + 1, does not fit 64 bits
    pub const UNCOUNTED: usize = 9223372036854775808;
}

// What a caller lets a call take. The header's price is 2 for each byte of the file and 1; a block's is 3136 and an output byte's 1.
#[derive(Clone, Copy, Debug, PartialEq, Eq)]
pub struct Budget {
    pub left: u64,
}

impl Budget {
    pub const FILE_BYTE: u64 = 2;

    pub const FILE: u64 = 1;

    pub const BLOCK: u64 = 3136;

    pub fn fresh(left: u64) -> Self
        ensures { result ≡ record { left = left } }
    {
        Self { left }
    }
}

// What turns a block's double sum into a sample: MIDDLE is added, the sum is divided by a step and rounded down, and what lies outside
// LEAST and MOST becomes the nearer of the two. A step is 2 to the STEP_BITS, 1073741824; so 273804165120, from which on the rules have
// 255, is 255 steps.
#[derive(Clone, Copy)]
pub struct Sample;

impl Sample {
    pub const MIDDLE: i64 = 137975824384;

    pub const STEP_BITS: i64 = 30;

    pub const LEAST: i16 = 0;

    pub const MOST: i16 = 255;
}

// A level of a block; the first lies between these two.
#[derive(Clone, Copy)]
pub struct Level;

impl Level {
    pub const LEAST: i64 = -2048;

    pub const MOST: i64 = 2047;
}

// The block and the place that an answer names; the rules have both 0 where it names none.
#[derive(Clone, Copy, Debug, Default, PartialEq, Eq)]
pub struct Named {
    pub block: usize,
    pub place: usize,
}

impl Refusal {
    // the number of the rules
    pub fn number(self) -> u8
        ensures { result ≡ number_of self }
    {
        match self {
            Self::TooLong => 1,
            Self::OverBudget => 2,
            Self::CutShort => 3,
            Self::Malformed => 4,
            Self::Unsupported => 5,
            Self::TooLarge => 6,
            Self::WorkOverBudget => 2,
            Self::ShortRoom => 7,
            Self::NotItsRecord => 8,
            Self::NoEndCode => 9,
            Self::Scan(w) => w.fault.number(),
        }
    }

    // the block and the place that it names: a scan's, else none
    fn named(self) -> Named
        ensures { result ≡ named_by self }
    {
        let Self::Scan(w) = self else {
            return Named::default();
        };
        Named {
            block: w.block,
            place: w.place,
        }
    }
}

// The number of an answer; 0 where it is accepted.
pub fn number(verdict: Verdict) -> u8
    ensures { result ≡ number verdict }
{
    match verdict {
        Ok(()) => 0,
        Err(x) => x.number(),
    }
}

// Where a scan broke; 0 and 0 for every other answer.
pub fn place_named(verdict: Verdict) -> Named
    ensures { result ≡ named verdict }
{
    match verdict {
        Ok(()) => Named::default(),
        Err(x) => x.named(),
    }
}

// Whether a call accepted, or why it refused.
pub type Verdict = Result<(), Refusal>;

// What inspect answers. The budget and the record stand beside the verdict, and not in its Ok: the rules give a refusal a budget too, and a
// record of zeros (`inspection` of `specs/Calls`).
#[derive(Clone, Copy)]
pub struct Inspection {
    pub verdict: Verdict,
    pub budget: Budget,
    pub found: Record,
}

// What decode answers, beside the two buffers. A refusal has a budget too, so it stands beside the verdict.
#[derive(Clone, Copy)]
pub struct Decoding {
    pub verdict: Verdict,
    pub budget: Budget,
}

// What settle answers, beside the buffer. A refusal has a budget too, and for want of room the length that is asked for, so both stand beside
// the verdict.
#[derive(Clone, Copy)]
pub struct Settling {
    pub verdict: Verdict,
    pub budget: Budget,
    pub length: usize,
}

// A part of a file: its place and its length.
#[derive(Clone, Copy, Debug, PartialEq, Eq)]
pub struct Part {
    pub at: usize,
    pub length: usize,
}

// What has_comment answers. A refusal has a budget too, and says that no comment is there, so both stand beside the verdict.
#[derive(Clone, Copy)]
pub struct Presence {
    pub verdict: Verdict,
    pub budget: Budget,
    pub there: bool,
}

// Behind a block that was read: the place after it, its first level, which predicts the channel's next one, and how many places its
// levels reach.
#[derive(Clone, Copy)]
pub struct BlockRead<P> {
    pub after: P,
    pub first: i32,
    pub reach: usize,
}

// Why a scan is not settled: a code is wanting, or it broke.
#[derive(Clone, Copy, Debug, PartialEq, Eq)]
pub enum Unsettled {
    Lacking,
    Broke(Break),
}

impl From<Break> for Unsettled {
    ghost from_gives = { λ w e. e ≡ Broke w };

    fn from(w: Break) -> Self {
        Self::Broke(w)
    }
}

impl From<Break> for Refusal {
    ghost from_gives = { λ w e. e ≡ Scan w };

    fn from(w: Break) -> Self {
        Self::Scan(w)
    }
}

impl From<Unsettled> for Refusal {
    ghost from_gives = { λ u e. e ≡ refusal_of u };

    fn from(u: Unsettled) -> Self {
        match u {
            Unsettled::Lacking => Self::NoEndCode,
            Unsettled::Broke(w) => Self::Scan(w),
        }
    }
}
