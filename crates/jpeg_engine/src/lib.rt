// What a pass over a scan reads by (the rules' 'MCUs, restarts, end'). The plain engine keeps a bit place of the file; the fast one keeps up to
// 64 bits at once, and of a break it answers only that there was one. The drivers over MCUs and blocks stand above, once for both.
#![tactic(auto)]

ghost use Rattle.std.specs.Prelude.{◌≡◌, ◌-◌, ◌<◌, ◌≤◌, List, ℕ, length, take, refl};
ghost use Rattle.reading.specs.declared.Bits.{Bits};
ghost use Rattle.reading.specs.declared.Break.{Break};
ghost use Rattle.reading.specs.declared.ScanCursor.{ScanCursor};
ghost use Rattle.reading.specs.Code.Scans.{at_start, nowhere};
ghost use Rattle.jpeg_scan_plan.specs.declared.Plan.{Plan};
ghost use Rattle.jpeg_scan_plan.specs.Marks.{broke_in, closes, restarted};
ghost use Rattle.jpeg_bits_wide.specs.Cursor.{Meets};
ghost use Rattle.jpeg_huffman_table.specs.Looks.{looks};
ghost use Rattle.jpeg_engine.specs.Engines.{Follows, Led, block_here, Alike};
ghost use Rattle.jpeg_engine.specs.Between.{started, restarted_wide, ends_wide};

use jpeg_bits_wide::Wide;
use jpeg_scan_plan::Plan;
use reading::{Bits, BlockRead, Break, Fault, ScanCursor};

// With fewer blocks the tables of the fast engine take longer than they save.
pub const LEAST: usize = 100;

pub trait Engine: Copy {
    type Place: Copy;

    // the file that it reads, and the plan of the scan
    ghost file: { Self → List ℕ };

    ghost plan_of: { Self → Plan };

    // a bit place of the file is met by a place
    ghost meets: { Self → Bits → Self.Place → Type 0 };

    // what it says of a break
    ghost says: { Break → Break };

    fn bytes(&self) -> &[u8]
        ensures { result.now ≡ file self.now };

    fn plan(&self) -> &Plan
        ensures { result.now ≡ plan_of self.now };

    // the bytes before the first coded one, where the tables stand
    fn head(&self) -> &[u8]
        ensures { result.now ≡ take (plan_of self.now).start (file self.now) }
    {
        &self.bytes()[..self.plan().start]
    }

    // before the first block
    fn fresh(&self) -> ScanCursor<Self::Place>
        ensures { Follows (meets self.now) (at_start (plan_of self.now).start) result };

    // before MCU m
    fn restart(
        &self,
        from: ScanCursor<Self::Place>,
        m: usize,
    ) -> Result<ScanCursor<Self::Place>, Fault>
        ensures { (q : ScanCursor Bits) → Follows (meets self.now) q from → Led (meets self.now) (restarted (file self.now) (plan_of self.now).interval m q) result };

    // a block of channel c
    fn block(
        &self,
        c: usize,
        at: Self::Place,
        prediction: i32,
        levels: &mut [i16; 64],
    ) -> Result<BlockRead<Self::Place>, Fault>
        ensures { c < 4 → (b : Bits) → meets self.now b at → Alike (meets self.now) (block_here (file self.now) (plan_of self.now) c prediction b) result levels.new };

    // the end behind the last block
    fn at_end(&self, at: Self::Place) -> bool
        ensures { (b : Bits) → meets self.now b at → result ≡ closes (file self.now) b };

    // a fault that was met at `here`, in the MCU before which the scan stood at `before`
    fn broke(
        &self,
        before: ScanCursor<Self::Place>,
        here: ScanCursor<Self::Place>,
        f: Fault,
    ) -> Break
        ensures { (turn q : ScanCursor Bits) → Follows (meets self.now) turn before → Follows (meets self.now) q here → result ≡ says (broke_in turn q f) };

    // how many bytes there are from the first coded byte on
    fn coded(&self) -> usize
        ensures { result ≡ length (file self.now) - (plan_of self.now).start }
    {
        self.bytes().len() - self.plan().start
    }

    ghost says_once: { (w : Break) → says (says w) ≡ says w };

    // the scan begins in the file, and an MCU has blocks
    ghost begins: { (e : Self) → (plan_of e).start ≤ length (file e) };

    ghost some: { (e : Self) → 0 < (plan_of e).per };
}

// By bit places of the file: it says why and where a scan broke.
#[derive(Clone, Copy)]
pub struct Plain<'a> {
    pub s: &'a [u8],
    pub plan: Plan,
    pub ghost begins: { plan.start ≤ length s.now },
    pub ghost some: { 0 < plan.per },
}

impl<'a> Engine for Plain<'a> {
    type Place = Bits;

    ghost file = { λ e. e.s.now };

    ghost plan_of = { λ e. e.plan };

    ghost meets = { λ e b at. b ≡ at };

    ghost says = { λ w. w };

    ghost says_once = { λ w. refl };

    ghost begins = { λ e. e.begins };

    ghost some = { λ e. e.some };

    fn bytes(&self) -> &[u8] {
        self.s
    }

    fn plan(&self) -> &Plan {
        &self.plan
    }

    fn fresh(&self) -> ScanCursor<Bits> {
        ScanCursor::fresh(self.plan.start)
    }

    fn restart(&self, from: ScanCursor<Bits>, m: usize) -> Result<ScanCursor<Bits>, Fault>
        ensures { (q : ScanCursor Bits) → Follows (λ b at. b ≡ at) q from → Led (λ b at. b ≡ at) (restarted self.now.s.now self.now.plan.interval m q) result }
    {
        jpeg_scan_plan::restart(self.s, from, m, self.plan.interval)
    }

    fn block(
        &self,
        c: usize,
        at: Bits,
        prediction: i32,
        levels: &mut [i16; 64],
    ) -> Result<BlockRead<Bits>, Fault> {
        jpeg_block::block(
            self.head(),
            reading::at_or(&self.plan.dcs, c, 0),
            reading::at_or(&self.plan.acs, c, 0),
            self.s,
            at,
            prediction,
            levels,
        )
    }

    fn at_end(&self, at: Bits) -> bool {
        jpeg_scan_plan::at_end(self.s, at)
    }

    fn broke(&self, before: ScanCursor<Bits>, here: ScanCursor<Bits>, f: Fault) -> Break
        ensures { (turn q : ScanCursor Bits) → Follows (λ b at. b ≡ at) turn before → Follows (λ b at. b ≡ at) q here → result ≡ broke_in turn q f }
    {
        jpeg_scan_plan::broke_in(before, here, f)
    }
}

// Before the first block of a scan whose first coded byte is at `at`.
pub fn fresh(at: usize) -> ScanCursor<Wide>
    ensures { result ≡ started at }
{
    ScanCursor {
        bits: Wide::fresh(at),
        predictors: [0; 4],
        done: 0,
    }
}

// Before MCU m: where a restart is due, its marker, and the predictors become 0. Where eight bits or more are left no marker is next.
#[tactic(auto, unfolding(crate::specs::Between::restarted_wide))]
pub fn restart(
    s: &[u8],
    from: ScanCursor<Wide>,
    m: usize,
    interval: usize,
) -> Result<ScanCursor<Wide>, Fault>
    ensures { result ≡ restarted_wide s.now interval m from }
{
    if !jpeg_scan_plan::restart_due(m, interval) {
        return Ok(from);
    }
    let ScanCursor {
        bits,
        predictors,
        done,
    } = from;
    if 7 < bits.left {
        return Err(Fault::Broken);
    }
    let narrow = ScanCursor {
        bits: jpeg_bits_wide::narrow(bits),
        predictors,
        done,
    };
    let behind = jpeg_scan_plan::restart(s, narrow, m, interval)?;
    Ok(ScanCursor {
        done,
        ..fresh(behind.bits.at)
    })
}

// After the last block: the marker 217, and no byte behind it.
#[tactic(auto, unfolding(crate::specs::Between::ends_wide))]
pub fn at_end(s: &[u8], w: Wide) -> bool
    ensures { result ≡ ends_wide s.now w }
{
    w.left <= 7 && jpeg_scan_plan::at_end(s, jpeg_bits_wide::narrow(w))
}

// By up to 64 bits at once, and symbols by a look at a table: of a break it says only that there was one. The table stands before the plan:
// tried, behind it reading takes 1 % longer.
#[derive(Clone, Copy)]
pub struct Fast<'a> {
    pub s: &'a [u8],
    pub look: &'a [u16; 4096],
    pub plan: Plan,
    pub ghost begins: { plan.start ≤ length s.now },
    pub ghost some: { 0 < plan.per },
    pub ghost looked: { look.now ≡ looks (take plan.start s.now) plan.dcs plan.acs },
}

impl<'a> Engine for Fast<'a> {
    type Place = Wide;

    ghost file = { λ e. e.s.now };

    ghost plan_of = { λ e. e.plan };

    ghost meets = { λ e b at. Meets e.s.now b at };

    ghost says = { λ w. nowhere };

    ghost says_once = { λ w. refl };

    ghost begins = { λ e. e.begins };

    ghost some = { λ e. e.some };

    fn bytes(&self) -> &[u8] {
        self.s
    }

    fn plan(&self) -> &Plan {
        &self.plan
    }

    fn fresh(&self) -> ScanCursor<Wide> {
        fresh(self.plan.start)
    }

    fn restart(&self, from: ScanCursor<Wide>, m: usize) -> Result<ScanCursor<Wide>, Fault>
        ensures { (q : ScanCursor Bits) → Follows (λ b at. Meets self.now.s.now b at) q from → Led (λ b at. Meets self.now.s.now b at) (restarted self.now.s.now self.now.plan.interval m q) result }
    {
        restart(self.s, from, m, self.plan.interval)
    }

    fn block(
        &self,
        c: usize,
        at: Wide,
        prediction: i32,
        levels: &mut [i16; 64],
    ) -> Result<BlockRead<Wide>, Fault> {
        jpeg_block_wide::block(
            self.head(),
            reading::at_or(&self.plan.dcs, c, 0),
            reading::at_or(&self.plan.acs, c, 0),
            self.look,
            c,
            self.s,
            at,
            prediction,
            levels,
        )
    }

    fn at_end(&self, at: Wide) -> bool {
        at_end(self.s, at)
    }

    fn broke(&self, _before: ScanCursor<Wide>, _here: ScanCursor<Wide>, _f: Fault) -> Break
        ensures { (turn q : ScanCursor Bits) → Follows (λ b at. Meets self.now.s.now b at) turn _before → Follows (λ b at. Meets self.now.s.now b at) q _here → result ≡ nowhere }
    {
        Break::nowhere()
    }
}
