// A whole scan by the fast engine (the rules' 'MCUs, restarts, end'): up to 64 bits at once, symbols by a look at a table. It answers what the
// plain engine of `jpeg_scan` answers. Where the fast one meets a fault the plain one reads the scan again and says why and where it broke; so
// does it serve the scans that are too short for the tables to pay.
#![tactic(auto)]

ghost use Rattle.std.specs.Prelude.{◌≡◌};
ghost use Rattle.reading.specs.Code.Scans.{scan_of};
ghost use Rattle.reading.specs.Code.Answers.{scan_read};
ghost use Rattle.jpeg_scan.specs.Steps.{drawn_for};

use jpeg_bits_wide::Wide;
use jpeg_engine::Fast;
use jpeg_scan_plan::Plan;
use reading::{Break, Record, ScanCursor};

// Between the MCUs: before the first block, the restart, the end, at any cursor of the fast engine.
pub use jpeg_engine::{at_end, fresh, restart};

// A scan before a block, as the fast engine keeps it: up to 64 bits at once, the predictors and the count of blocks done.
pub type WideCursor = ScanCursor<Wide>;

// The scan of a record is read, and nothing is kept of it.
pub fn validate(s: &[u8], found: Record) -> Result<(), Break>
    ensures { result ≡ scan_read (scan_of s.now found) }
{
    let plan = Plan::of(s, found).ok_or(Break::nowhere())?;
    if plan.blocks < jpeg_engine::LEAST {
        return jpeg_scan::validate(s, found);
    }
    let look = &jpeg_huffman_table::looks(&s[..plan.start], plan.dcs, plan.acs);
    match jpeg_scan::validate_by(Fast { s, plan, look }) {
        Err(_) => jpeg_scan::validate(s, found),
        done => done,
    }
}

// The scan of a record is read, and then, where it was accepted and the scratch has room for all blocks, read again with its
// samples: so a refusal writes nothing.
pub fn draw(s: &[u8], found: Record, scratch: &mut [u8]) -> Result<(), Break>
    ensures { (result ≡ scan_read (scan_of s.now found)) × (scratch.new ≡ drawn_for s.now found scratch.old) }
{
    let plan = Plan::of(s, found).ok_or(Break::nowhere())?;
    if plan.blocks < jpeg_engine::LEAST {
        return jpeg_scan::draw(s, found, scratch);
    }
    let look = &jpeg_huffman_table::looks(&s[..plan.start], plan.dcs, plan.acs);
    match jpeg_scan::draw_by(Fast { s, plan, look }, scratch) {
        Err(_) => jpeg_scan::draw(s, found, scratch),
        done => done,
    }
}
