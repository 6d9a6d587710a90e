// A whole scan (the rules' 'MCUs, restarts, end'): MCU by MCU and block by block, restarts where they are due, the end. One driver
// reads it by any engine, without samples for `validate`, with them for `draw`.
#![tactic(auto)]

ghost use Rattle.std.specs.Prelude.{◌≡◌, true, Some, cond, ◌+◌, ◌*◌, ◌/◌, ◌≤◌, ltb, length, take, drop};
ghost use Rattle.reading.specs.Tests.{◌and◌};
ghost use Rattle.reading.specs.Code.Painted.{samples_to};
ghost use Rattle.reading.specs.Code.Scans.{scan_of};
ghost use Rattle.reading.specs.Code.Answers.{scan_read};
ghost use Rattle.jpeg_scan_plan.specs.Plans.{plan_for};
ghost use Rattle.jpeg_scan.specs.Steps.{placed, WentBy, ReadBy, said_by, drawn_for};

use jpeg_engine::{Engine, Plain};
use jpeg_scan_plan::Plan;
use reading::{Break, Fault, Record, ScanCursor};

// Block k's samples, where they are written and the scratch has room for them, in their own 64 bytes of it. A caller that knows of the room
// has the second clause. `write` stays beside the scratch: in an Option the scratch would have to be lent anew for each MCU and each block, and a
// closure that takes a block's levels was tried: it costs 7 hundredths of inspect and 4 of decode, since the loop is then compiled twice.
pub fn paint(
    t: &[u8],
    at: usize,
    levels: &[i16; 64],
    reach: usize,
    k: usize,
    write: bool,
    scratch: &mut [u8],
)
    ensures written { scratch.new ≡ cond (write and ltb k (length scratch.old / 64)) (placed (64 * k) (samples_to (take 64 (drop at t.now)) levels.now reach) scratch.old) scratch.old }
    ensures with_room { (write ≡ true → 64 * k + 64 ≤ length scratch.old) → scratch.new ≡ cond write (placed (64 * k) (samples_to (take 64 (drop at t.now)) levels.now reach) scratch.old) scratch.old }
{
    if !write || scratch.len() / 64 <= k {
        return;
    }
    let a = 64 * k;
    jpeg_transform::samples(
        levels,
        jpeg_scan_plan::quantizer(t, at),
        reach,
        &mut scratch[a..a + 64],
    );
}

// MCU m, before which the scan stands at `before`: the restart, where one is due, and the blocks, as many as are left of the scan; where none
// is left, nothing. Where `write` says so, each block's samples go into its own part of the scratch. The engine comes by value and the
// cursor's parts stand alone: tried, an engine that is lent costs 7 % of reading, and a cursor that stays whole 4 %.
fn mcu<E: Engine>(
    engine: E,
    m: usize,
    before: ScanCursor<E::Place>,
    write: bool,
    scratch: &mut [u8],
) -> Result<ScanCursor<E::Place>, Break>
    requires { write ≡ true → 64 * (E.plan_of engine).blocks ≤ length scratch.old }
    ensures { WentBy (E.meets engine) E.says (E.file engine) (E.plan_of engine) m before write scratch.old result scratch.new }
{
    let plan = engine.plan();
    if plan.blocks <= before.done {
        return Ok(before);
    }
    let t = engine.head();
    let ScanCursor {
        mut bits,
        mut predictors,
        mut done,
    } = engine
        .restart(before, m)
        .map_err(|f| engine.broke(before, before, f))?;
    let mut order = plan.order;
    let mut levels = [0i16; 64];
    for _ in 0..plan.per.min(plan.blocks.saturating_sub(done)) {
        let c = jpeg_scan_plan::channel(order);
        let read = engine
            .block(c, bits, predictors[c], &mut levels)
            .map_err(|f| {
                let here = ScanCursor {
                    bits,
                    predictors,
                    done,
                };
                engine.broke(before, here, f)
            })?;
        paint(t, plan.quants[c], &levels, read.reach, done, write, scratch);
        bits = read.after;
        predictors[c] = read.first;
        done += 1;
        order /= 4;
    }
    Ok(ScanCursor {
        bits,
        predictors,
        done,
    })
}

// A whole scan, with or without its samples.
fn run<E: Engine>(engine: E, write: bool, scratch: &mut [u8]) -> Result<(), Break>
    requires { write ≡ true → 64 * (E.plan_of engine).blocks ≤ length scratch.old }
    ensures { ReadBy E.says (E.file engine) (E.plan_of engine) write scratch.old result scratch.new }
{
    let plan = engine.plan();
    let mut cursor = engine.fresh();
    for m in 0..plan.blocks.div_ceil(plan.per) {
        cursor = mcu(engine, m, cursor, write, scratch)?;
    }
    if !engine.at_end(cursor.bits) {
        return Err(engine.broke(cursor, cursor, Fault::Broken));
    }
    Ok(())
}

// The scan of an engine is read, and nothing is kept of it.
pub fn validate_by<E: Engine>(engine: E) -> Result<(), Break>
    ensures { (found : Record) → Some (E.plan_of engine) ≡ plan_for (E.file engine) found → result ≡ said_by E.says (scan_read (scan_of (E.file engine) found)) }
{
    run(engine, false, &mut [])
}

// The scan of an engine is read, and then, where it was accepted and the scratch has room for all blocks, read again with its samples: so a
// refusal writes nothing.
pub fn draw_by<E: Engine>(engine: E, scratch: &mut [u8]) -> Result<(), Break>
    ensures told { (found : Record) → Some (E.plan_of engine) ≡ plan_for (E.file engine) found → result ≡ said_by E.says (scan_read (scan_of (E.file engine) found)) }
    ensures drawn { (found : Record) → Some (E.plan_of engine) ≡ plan_for (E.file engine) found → scratch.new ≡ drawn_for (E.file engine) found scratch.old }
{
    run(engine, false, scratch)?;
    if scratch.len() / 64 < engine.plan().blocks {
        return Ok(());
    }
    run(engine, true, scratch)
}

// The scan of a record is read, and nothing is kept of it.
pub fn validate(s: &[u8], found: Record) -> Result<(), Break>
    ensures { result ≡ scan_read (scan_of s.now found) }
{
    let plan = Plan::of(s, found).ok_or(Break::nowhere())?;
    validate_by(Plain { s, plan })
}

// The scan of a record is read, and then, where it was accepted and the scratch has room for all blocks, read again with its
// samples: so a refusal writes nothing.
pub fn draw(s: &[u8], found: Record, scratch: &mut [u8]) -> Result<(), Break>
    ensures { (result ≡ scan_read (scan_of s.now found)) × (scratch.new ≡ drawn_for s.now found scratch.old) }
{
    let plan = Plan::of(s, found).ok_or(Break::nowhere())?;
    draw_by(Plain { s, plan }, scratch)
}
