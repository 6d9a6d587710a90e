// A record's scan, read and written settled (the rules' 'The settled scan'): blocks, restarts and the end, and the pass over a whole
// scan. A pen stores a byte where the lent buffer has room and counts it in any case, so that one path both measures and writes.
// What is asked of a pen, of an ink, of levels and of words (`Proper`, `Fit`, `Quiet`, `Worded`) is one word of a clause each; a type for each
// would have to be made and taken apart at every call, and would be no plainer. An engine and the words of its tables stand apart: tried, one
// struct of both costs 1.3 hundredths of settle where an MCU has one block, and 0.5 where it has six.
#![tactic(auto)]

ghost use Rattle.std.specs.Prelude.{◌≡◌, ◌+◌, ◌*◌, ◌-◌, ◌≤◌, ◌<◌, ◌^◌, length, take};
ghost use Rattle.std.proofs.Math.Option.{some};
ghost use Rattle.reading.specs.declared.Bits.{Bits};
ghost use Rattle.reading.specs.declared.ScanCursor.{ScanCursor};
ghost use Rattle.reading.specs.Words.{AllBytes};
ghost use Rattle.reading.specs.Layout.{due_before, restart_before};
ghost use Rattle.reading.specs.Settled.{block_by, onto, cut};
ghost use Rattle.reading.specs.Code.Scans.{settled_of, scan_settled, laid_over};
ghost use Rattle.jpeg_write_bits.specs.Page.{page, Proper};
ghost use Rattle.jpeg_write_scan.specs.Puts.{Puts};
ghost use Rattle.jpeg_write_codes.specs.Words.{coder_of};
ghost use Rattle.jpeg_write_symbols.specs.Turns.{zeros_at};
ghost use Rattle.jpeg_write_scan.specs.Steps.{Quiet, word_at};
ghost use Rattle.jpeg_write_codes.specs.Sheets.{words_in, sure};
ghost use Rattle.jpeg_write_scan.specs.Pass.{final_by, Fit, Moves, last_part, Closes, foretold};
ghost use Rattle.jpeg_write_scan.specs.Engines.{Followed, Worded, Serves, WentBy, RanBy, MeasuresBy, told_by};

use jpeg_engine::{Engine, Fast, Plain};
use jpeg_scan_plan::Plan;
use jpeg_write_bits::Pen;
use reading::{Break, Fault, Record, ScanCursor, Unsettled};

// The word of a symbol that stands at a place: the first place has a table of its own.
fn word_at(dc: &[u32], ac: &[u32], place: usize, x: usize) -> usize
    ensures { result ≡ word_at dc.now ac.now place x }
{
    jpeg_write_codes::word_of(if place == 0 { dc } else { ac }, x)
}

// How many levels from a place on are zero, where those from `reach` on are known to be zero and need not be looked at.
#[tactic(auto, using(crate::proofs::Quiets::zeros_quiet))]
fn zeros_to(levels: &[i16], place: usize, reach: usize) -> usize
    requires { Quiet reach levels.now × (place ≤ length levels.now) }
    ensures { result ≡ zeros_at levels.now place }
{
    if reach <= place {
        return levels.len() - place;
    }
    jpeg_write_symbols::zeros_from(levels, place)
}

// A block of levels by the words of its two tables, behind the prediction; the levels from `reach` on
// are zero. One turn for each level that is not zero, for each
// 240 and for the end code. (No level at all lacks its code.) The loop goes on to a place that is read, so that no `for` counts it.
fn put_block(
    out: &mut [u8],
    p: Pen,
    dc: &[u32],
    ac: &[u32],
    levels: &[i16],
    pred: i32,
    reach: usize,
) -> Option<Pen>
    requires { Proper p × Quiet reach levels.now }
    ensures { Puts (block_by (coder_of dc.now) (coder_of ac.now) pred levels.now) (page out.old p) result out.new }
{
    if levels.is_empty() {
        return None;
    }
    let mut pen = p;
    let mut place = 0usize;
    let mut run = 0usize;
    loop {
        let zeros = zeros_to(levels, place, reach);
        place += zeros;
        run += zeros;
        if jpeg_write_symbols::is_over(levels.len(), place, run) {
            return Some(pen);
        }
        let turn = jpeg_write_symbols::next(levels, pred, place, run);
        let word = word_at(dc, ac, place, turn.symbol);
        pen = jpeg_write_bits::put_symbol(out, pen, word, turn.field, turn.size)?;
        place = turn.place;
        run = turn.run;
    }
}

// A block of channel c behind what is written. After the want of a code nothing more is written.
fn put_on(
    out: &mut [u8],
    ink: Option<Pen>,
    words: &[u32],
    c: usize,
    levels: &[i16; 64],
    pred: i32,
    reach: usize,
) -> Option<Pen>
    requires { Fit ink × (c < 4) × (length words.now ≡ 2048) × Quiet reach levels.now }
    ensures { Moves (onto (block_by (coder_of (words_in (512 * c) words.now)) (coder_of (words_in (512 * c + 256) words.now)) pred levels.now)) ink out.old result out.new }
{
    let a = 512 * c;
    let b = a + 256;
    put_block(
        out,
        ink?,
        &words[a..b],
        &words[b..b + 256],
        levels,
        pred,
        reach,
    )
}

// The restart before MCU m, where one is due.
fn mark(out: &mut [u8], ink: Option<Pen>, m: usize, interval: usize) -> Option<Pen>
    requires { Fit ink }
    ensures { Moves (cut (due_before interval m) (restart_before interval m)) ink out.old result out.new }
{
    if !jpeg_scan_plan::restart_due(m, interval) {
        return ink;
    }
    let code = jpeg_scan_plan::restart_code(m, interval);
    Some(jpeg_write_bits::restart(out, ink?, code as u8))
}

// The end of a scan: how many bytes it has.
#[tactic(auto, using(crate::proofs::Inks::fit_pen, crate::proofs::Inks::closes_none, crate::proofs::Inks::closes_end))]
fn last(out: &mut [u8], ink: Option<Pen>) -> Result<usize, Unsettled>
    requires { Fit ink }
    ensures { Closes (final_by ink out.old (some last_part)) result out.new }
{
    let p = ink.ok_or(Unsettled::Lacking)?;
    Ok(jpeg_write_bits::put_end(out, p))
}

// Where a pass stands: the cursor before a block, and the pen behind what is written; none after the want of a code.
#[derive(Clone, Copy)]
struct Moved<P> {
    cursor: ScanCursor<P>,
    ink: Option<Pen>,
}

// MCU m, before which a pass stands at `before`: the restart, where one is due, and the blocks, as many as are left of the scan, are read and
// written; where none is left, nothing is.
fn mcu<E: Engine>(
    engine: &E,
    words: &[u32],
    m: usize,
    before: Moved<E::Place>,
    out: &mut [u8],
) -> Result<Moved<E::Place>, Break>
    requires { Worded (E.file engine.now) (E.plan_of engine.now) words.now × Fit before.ink × Followed (E.meets engine.now) before.cursor }
    ensures { WentBy (E.meets engine.now) E.says (E.file engine.now) (E.plan_of engine.now) m before out.old result out.new }
{
    let plan = engine.plan();
    if plan.blocks <= before.cursor.done {
        return Ok(before);
    }
    let mut cursor = engine
        .restart(before.cursor, m)
        .map_err(|f| engine.broke(before.cursor, before.cursor, f))?;
    let mut ink = mark(out, before.ink, m, plan.interval);
    let mut order = plan.order;
    let mut levels = [0i16; 64];
    for _ in 0..plan.per.min(plan.blocks.saturating_sub(cursor.done)) {
        let c = jpeg_scan_plan::channel(order);
        let prediction = cursor.predictors[c];
        let read = match engine.block(c, cursor.bits, prediction, &mut levels) {
            Ok(read) => read,
            Err(f) => return Err(engine.broke(before.cursor, cursor, f)),
        };
        ink = put_on(out, ink, words, c, &levels, prediction, read.reach);
        cursor.bits = read.after;
        cursor.predictors[c] = read.first;
        cursor.done += 1;
        order /= 4;
    }
    Ok(Moved { cursor, ink })
}

// A pass over a whole scan: it is read to its end or to a fault, and written from the start of the buffer on until a code is
// wanting.
fn run<E: Engine>(engine: &E, words: &[u32], out: &mut [u8]) -> Result<usize, Unsettled>
    requires { Worded (E.file engine.now) (E.plan_of engine.now) words.now }
    ensures { RanBy E.says (E.file engine.now) (E.plan_of engine.now) out.old result out.new }
{
    let plan = engine.plan();
    let mut at = Moved {
        cursor: engine.fresh(),
        ink: Some(Pen::fresh(0)),
    };
    for m in 0..plan.blocks.div_ceil(plan.per) {
        at = mcu(engine, words, m, at, out)?;
    }
    let Moved { cursor, ink } = at;
    if !engine.at_end(cursor.bits) {
        return Err(Unsettled::Broke(engine.broke(cursor, cursor, Fault::Broken)));
    }
    last(out, ink)
}

// A pass that keeps nothing: what a scan comes to.
fn measure<E: Engine>(engine: &E, words: &[u32]) -> Result<usize, Unsettled>
    requires { Worded (E.file engine.now) (E.plan_of engine.now) words.now }
    ensures { MeasuresBy E.says (E.file engine.now) (E.plan_of engine.now) result }
{
    run(engine, words, &mut [])
}

// What is known of a scan before it is written. Measuring it takes longer than reading it, so it is measured only where reading
// alone does not tell.
fn foretell<E: Engine>(
    engine: &E,
    found: Record,
    words: &[u32],
    room: usize,
) -> Result<usize, Unsettled>
    requires { Serves (E.file engine.now) found (E.plan_of engine.now) × Worded (E.file engine.now) (E.plan_of engine.now) words.now }
    ensures { told_by E.says result ≡ told_by E.says (foretold (sure found words.now (length (E.file engine.now) - (E.plan_of engine.now).start) room) room (settled_of (E.file engine.now) found)) }
{
    if !jpeg_write_codes::sure(found, words, engine.coded(), room) {
        return measure(engine, words);
    }
    jpeg_scan::validate_by(*engine)?;
    Ok(room)
}

// The scan of a record is read, and then, where it was accepted, lacks no code and the buffer has room for all of it, read again
// and written: so a refusal writes nothing.
fn settle<E: Engine>(
    engine: &E,
    found: Record,
    words: &[u32],
    out: &mut [u8],
) -> Result<usize, Unsettled>
    requires { Serves (E.file engine.now) found (E.plan_of engine.now) × Worded (E.file engine.now) (E.plan_of engine.now) words.now × AllBytes (E.file engine.now) }
    ensures { (told_by E.says result ≡ told_by E.says (scan_settled (settled_of (E.file engine.now) found))) × (out.new ≡ laid_over (settled_of (E.file engine.now) found) out.old) }
{
    let n = foretell(engine, found, words, out.len())?;
    if out.len() < n {
        return Ok(n);
    }
    run(engine, words, out)
}

// With so many blocks or more, which no header gives, a record's scan is Broken: so no count of its bytes wraps.
const TOO_MANY: usize = 1 << 32;

// The scan of a record, read and written settled. A record with too many blocks, or with numbers by which no scan can be read, is Broken.
#[tactic(auto, using(crate::proofs::SettledAnswers::many_says, crate::proofs::SettledAnswers::many_stays))]
pub fn settled(s: &[u8], found: Record, out: &mut [u8]) -> Result<usize, Unsettled>
    ensures { (result ≡ scan_settled (settled_of s.now found)) × (out.new ≡ laid_over (settled_of s.now found) out.old) }
{
    if TOO_MANY <= found.blocks {
        return Err(Unsettled::Broke(Break::nowhere()));
    }
    let plan = Plan::of(s, found).ok_or(Break::nowhere())?;
    let bases = jpeg_huffman_table::paired(plan.dcs, plan.acs);
    let words = jpeg_write_codes::sheet(&s[..plan.start], bases);
    settle(&Plain { s, plan }, found, &words, out)
}

// The same by the fast engine: only where that one meets a fault the plain one reads the scan, and says why and where it broke. It also
// serves the scans for which the tables would not pay.
pub fn settled_wide(s: &[u8], found: Record, out: &mut [u8]) -> Result<usize, Unsettled>
    ensures { (result ≡ scan_settled (settled_of s.now found)) × (out.new ≡ laid_over (settled_of s.now found) out.old) }
{
    let Some(plan) = Plan::of(s, found) else {
        return settled(s, found, out);
    };
    if !(jpeg_engine::LEAST..TOO_MANY).contains(&found.blocks) {
        return settled(s, found, out);
    }
    let bases = jpeg_huffman_table::paired(plan.dcs, plan.acs);
    let words = jpeg_write_codes::sheet(&s[..plan.start], bases);
    let look = &jpeg_huffman_table::looks(&s[..plan.start], plan.dcs, plan.acs);
    match settle(&Fast { s, plan, look }, found, &words, out) {
        Err(Unsettled::Broke(_)) => settled(s, found, out),
        done => done,
    }
}
