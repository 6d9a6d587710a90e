// The picture from its block samples (the rules' 'Samples, places, colour'): row by row, channels interleaved, in colour where it is
// chosen and there are three channels. A row's first places are found once and then counted on, from MCU to MCU and from block to
// block, so that no pixel of the usual samplings costs a division. An MCU's samples are gathered or spread over its pixels before the
// loop over pixels. Nearly all files have one channel, or luma and two chroma channels of one block across: these have instances of
// their own, in which the blocks across are constants. Of them nearly all have sampling 1 or 2 across: with 2 in colour it is not the
// chroma samples that are spread but what they add to luma.
ghost use Rattle.std.specs.Prelude.{◌≡◌, true, false, [], ◌+◌, ◌*◌, ◌-◌, ◌/◌, ◌≤◌, ◌<◌, ℕ, length, get_or, IfSome};
ghost use Rattle.reading.specs.Tests.{over};
ghost use Rattle.reading.specs.Tables.{shape_of};
ghost use Rattle.reading.specs.Reading.{picture};
ghost use Rattle.jpeg_render_row.specs.Drawn.{written, pixels};
ghost use Rattle.jpeg_render.specs.Drawn.{row_drawn};
ghost use Rattle.jpeg_render.specs.Rows.{Drawable, LaneFits, in_lists, Spread, Widened, Gathered};
ghost use Rattle.jpeg_render.specs.Mcus.{OneFits, OneSpread, LanesFit, in_lanes, lanes_drawn, UsualFits, in_usual, TakenFrom};

use crate::layout::Measured;

// The 8 samples of a block in one row, to the places from x on. Here and in `gray` byte by byte: a copy of slices asks how far apart its two
// places lie, and one of any length is a call of `memmove`, which the archive for C does without.
fn gather_8(samples: &[u8], from: usize, x: usize, list: &mut [u8; 32])
    requires { (from + 8 ≤ length samples.now) × (x + 8 ≤ 32) }
    ensures { list.new ≡ written (λ j. get_or samples.now (from + j) 0) x 8 list.old }
{
    for j in 0..8 {
        list[x + j] = samples[from + j];
    }
}

// The samples of some blocks side by side: each has 8 of them.
fn gather(samples: &[u8], from: usize, blocks: usize, list: &mut [u8; 32])
    requires { (from + 64 * blocks ≤ length samples.now + 56) × (blocks ≤ 4) }
    ensures { Gathered samples.now from (8 * blocks) list.new }
{
    for block in 0..blocks {
        gather_8(samples, from + 64 * block, 8 * block, list);
    }
}

// Each of 8 samples hs times. Four are written; the next sample writes over those that are too many.
fn widen(samples: &[u8], from: usize, hs: usize, list: &mut [u8; 32])
    requires { (from + 8 ≤ length samples.now) × (hs ≤ 4) }
    ensures { Widened samples.now from hs list.new }
{
    for j in 0..8 {
        list[hs * j..hs * j + 4].fill(samples[from + j]);
    }
}

// The samples of a channel that has some blocks across, but fewer than the MCU: pixel i has sample i * own / largest.
fn part(samples: &[u8], from: usize, own: usize, largest: usize, list: &mut [u8; 32])
    requires { LaneFits samples.now from own largest }
    ensures { Spread samples.now from own largest list.new }
{
    for i in 0..8 * largest {
        let u = i * own / largest;
        list[i] = samples[from + (64 * (u / 8) + u % 8)];
    }
}

// The samples of a channel for the pixels of an MCU.
fn spread(samples: &[u8], from: usize, own: usize, largest: usize, list: &mut [u8; 32])
    requires { LaneFits samples.now from own largest }
    ensures { Spread samples.now from own largest list.new }
{
    if own == largest {
        gather(samples, from, own, list);
    } else if own == 1 {
        widen(samples, from, largest, list);
    } else {
        part(samples, from, own, largest, list);
    }
}

// Pixel i of lists of samples.
fn pixel<const C: usize>(lists: &[[u8; 32]; C], i: usize, out: &mut [u8], at: usize)
    requires { (i < 32) × (at + C ≤ length out.old) }
    ensures { out.new ≡ written (in_lists lists.now i) at C out.old }
{
    for c in 0..C {
        out[at + c] = lists[c][i];
    }
}

// The first n pixels of lists of samples, interleaved.
fn join<const C: usize>(lists: &[[u8; 32]; C], n: usize, out: &mut [u8])
    requires { (n ≤ 32) × (n * C ≤ length out.old) }
    ensures { out.new ≡ pixels (in_lists lists.now) C 0 n out.old }
{
    for i in 0..n {
        pixel(lists, i, out, i * C);
    }
}

// The usual three channels of a row: luma as wide as the MCU, which is hs blocks, and two of chroma with one block across. Each place is
// that of the row in the first MCU.
#[derive(Clone, Copy)]
struct LumaChroma<'a> {
    samples: &'a [u8],
    luma: usize,
    first: usize,
    second: usize,
    hs: usize,
    colour: bool,
}

impl LumaChroma<'_> {
    // an MCU whose number of blocks across is a constant, so that the samples are spread by a few stores. Tried with the number as it
    // comes: 4:4:4 takes 12 hundredths more instructions, 4:2:0 takes 4
    fn wide<const HS: usize>(&self, offset: usize, n: usize, out: &mut [u8])
        requires { UsualFits self.now out.old offset HS n }
        ensures { out.new ≡ pixels (in_usual self.now offset HS self.now.colour) 3 0 n out.old }
    {
        let mut luma = [0u8; 32];
        let mut cb = [0u8; 32];
        let mut cr = [0u8; 32];
        spread(self.samples, self.luma + offset, HS, HS, &mut luma);
        spread(self.samples, self.first + offset, 1, HS, &mut cb);
        spread(self.samples, self.second + offset, 1, HS, &mut cr);
        jpeg_render_row::run(&luma, &cb, &cr, n, self.colour, out);
    }

    // an MCU in colour, sampling 2 across: two pixels have one chroma sample, and what it adds is worked out once. The 8 samples of each
    // chroma channel are lent
    fn pairs(&self, offset: usize, n: usize, out: &mut [u8])
        requires { UsualFits self.now out.old offset 2 n }
        ensures { out.new ≡ pixels (in_usual self.now offset 2 true) 3 0 n out.old }
    {
        let mut luma = [0u8; 32];
        gather(self.samples, self.luma + offset, 2, &mut luma);
        let first = self.first + offset;
        let second = self.second + offset;
        jpeg_render_pairs::tinted(
            &luma,
            &self.samples[first..first + 8],
            &self.samples[second..second + 8],
            n,
            out,
        );
    }

    // the pixels of an MCU
    #[tactic(auto, using(crate::proofs::Mcus::colour_fits, crate::proofs::Mcus::colour_three))]
    fn mcu(&self, offset: usize, n: usize, out: &mut [u8])
        requires { UsualFits self.now out.old offset self.now.hs n }
        ensures { out.new ≡ pixels (in_usual self.now offset self.now.hs self.now.colour) 3 0 n out.old }
    {
        match (self.hs, self.colour) {
            (1, _) => self.wide::<1>(offset, n, out),
            (2, true) => self.pairs(offset, n, out),
            (2, _) => self.wide::<2>(offset, n, out),
            (3, _) => self.wide::<3>(offset, n, out),
            _ => self.wide::<4>(offset, n, out),
        }
    }
}

// What the MCUs of a row are drawn from: the block samples, the place of each channel's row in the first MCU, the blocks of each channel
// across an MCU and the most of them, how many channels there are, and whether colour is chosen for three.
#[derive(Clone, Copy)]
struct Lanes<'a> {
    samples: &'a [u8],
    places: [usize; 4],
    across: [usize; 4],
    largest: usize,
    channels: usize,
    colour: bool,
}

impl Lanes<'_> {
    // the samples of channel c for the pixels of the MCU at an offset
    fn spread(&self, c: usize, offset: usize, list: &mut [u8; 32])
        requires { (c < 4) × OneFits self.now c offset }
        ensures { OneSpread self.now c offset list.new }
    {
        spread(
            self.samples,
            self.places[c] + offset,
            self.across[c],
            self.largest,
            list,
        );
    }

    // those of the first C channels
    fn spread_all<const C: usize>(&self, offset: usize, lists: &mut [[u8; 32]; C])
        requires { (C ≤ 4) × ((c : ℕ) → c < C → OneFits self.now c offset) }
        ensures { (c : ℕ) → c < C → OneSpread self.now c offset (get_or lists.new c []) }
    {
        for c in 0..C {
            self.spread(c, offset, &mut lists[c]);
        }
    }

    // an MCU of C channels as the samples are
    fn joined<const C: usize>(&self, offset: usize, n: usize, out: &mut [u8])
        requires { LanesFit self.now out.old offset n C }
        ensures { out.new ≡ pixels (in_lanes self.now offset false) C 0 n out.old }
    {
        let mut lists = [[0u8; 32]; C];
        self.spread_all(offset, &mut lists);
        join(&lists, n, out);
    }

    // an MCU of three channels, in colour where it is chosen
    fn three(&self, offset: usize, n: usize, out: &mut [u8])
        requires { LanesFit self.now out.old offset n 3 }
        ensures { out.new ≡ pixels (in_lanes self.now offset self.now.colour) 3 0 n out.old }
    {
        let mut lists = [[0u8; 32]; 3];
        self.spread_all(offset, &mut lists);
        jpeg_render_row::run(&lists[0], &lists[1], &lists[2], n, self.colour, out);
    }

    // an MCU of any channels
    fn mcu(&self, offset: usize, n: usize, out: &mut [u8])
        requires { LanesFit self.now out.old offset n self.now.channels }
        ensures { out.new ≡ lanes_drawn self.now offset n out.old }
    {
        match self.channels {
            1 => self.joined::<1>(offset, n, out),
            2 => self.joined::<2>(offset, n, out),
            3 => self.three(offset, n, out),
            _ => self.joined::<4>(offset, n, out),
        }
    }

    // the channels of the row, where they are the usual three
    fn usual(&self) -> Option<LumaChroma>
        ensures { IfSome result (TakenFrom self.now) }
    {
        let [own, cb, cr, _] = self.across;
        if self.channels != 3 || own != self.largest || cb != 1 || cr != 1 {
            return None;
        }
        Some(LumaChroma {
            samples: self.samples,
            luma: self.places[0],
            first: self.places[1],
            second: self.places[2],
            hs: self.largest,
            colour: self.colour,
        })
    }
}

// At most 8 pixels of one channel: the samples as they are.
fn gray(samples: &[u8], from: usize, n: usize, out: &mut [u8])
    requires { (from + n ≤ length samples.now) × (n ≤ length out.old) }
    ensures { out.new ≡ pixels (λ i c. get_or samples.now (from + i) 0) 1 0 n out.old }
{
    for i in 0..n {
        out[i] = samples[from + i];
    }
}

// The pixels of an MCU in one row.
fn mcu<const GRAY: bool>(
    lanes: &Lanes,
    usual: Option<LumaChroma>,
    offset: usize,
    n: usize,
    out: &mut [u8],
)
    requires fits { LanesFit lanes.now out.old offset n lanes.now.channels }
    requires gray { GRAY ≡ true → (lanes.now.channels ≡ 1) × (lanes.now.largest ≡ 1) }
    requires taken { IfSome usual (TakenFrom lanes.now) }
    ensures { out.new ≡ lanes_drawn lanes.now offset n out.old }
{
    if GRAY {
        gray(lanes.samples, lanes.places[0] + offset, n, out);
        return;
    }
    match usual {
        Some(channels) => channels.mcu(offset, n, out),
        None => lanes.mcu(offset, n, out),
    }
}

// What a picture is drawn from: a frame with its measures, whether colour is chosen, and the samples of all blocks.
#[derive(Clone, Copy)]
pub(crate) struct Source<'a> {
    pub(crate) m: Measured,
    pub(crate) colour: bool,
    pub(crate) samples: &'a [u8],
}

impl Source<'_> {
    // row y, MCU by MCU; the last MCU may reach past the picture's side. One channel with one block across has an instance of its own,
    // whose loop only copies. Tried as a test of each MCU: such a picture takes 30 hundredths more instructions
    fn row<const GRAY: bool>(&self, y: usize, out: &mut [u8])
        requires fits { Drawable self.now.m.frame self.now.samples.now out.old × (y < self.now.m.frame.height) }
        requires gray { GRAY ≡ true → (self.now.m.frame.channels ≡ 1) × (self.now.m.mcu.across ≡ 1) }
        ensures { out.new ≡ row_drawn self.now.m.frame self.now.colour self.now.samples.now y out.old }
    {
        let m = self.m;
        let places = m.rows_of(y);
        let across = m.frame.across;
        let lanes = Lanes {
            samples: self.samples,
            places,
            across,
            largest: m.mcu.across,
            channels: m.frame.channels,
            colour: self.colour,
        };
        let usual = lanes.usual();
        let start = y * (m.frame.width * m.frame.channels);
        let step = 64 * m.mcu.blocks;
        let mut offset = 0usize;
        let mut x = 0usize;
        // No count: x goes on by the pixels of an MCU, of which the last may have fewer. Tried as a `for` over the number of the MCU, by
        // `step_by` and by `chunks_mut`: 4:2:0 takes 10 to 20 hundredths more instructions.
        while x < m.frame.width {
            let n = usize::min(m.frame.width - x, 8 * m.mcu.across);
            let at = start + x * m.frame.channels;
            mcu::<GRAY>(
                &lanes,
                usual,
                offset,
                n,
                &mut out[at..at + n * m.frame.channels],
            );
            offset += step;
            x += n;
        }
    }

    // row y by the instance for its channels
    fn any_row(&self, y: usize, out: &mut [u8])
        requires { Drawable self.now.m.frame self.now.samples.now out.old × (y < self.now.m.frame.height) }
        ensures { out.new ≡ row_drawn self.now.m.frame self.now.colour self.now.samples.now y out.old }
    {
        if self.m.frame.channels == 1 && self.m.mcu.across == 1 {
            self.row::<true>(y, out);
        } else {
            self.row::<false>(y, out);
        }
    }

    // the picture over what stood in the buffer
    pub(crate) fn picture(&self, out: &mut [u8])
        requires { Drawable self.now.m.frame self.now.samples.now out.old }
        ensures { out.new ≡ over (picture (shape_of self.now.m.frame) self.now.colour self.now.samples.now) out.old }
    {
        for y in 0..self.m.frame.height {
            self.any_row(y, out);
        }
    }
}
