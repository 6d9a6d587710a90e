// The public calls (the rules' 'Refusal numbers'): inspect, decode and settle, with their prices, limits and refusals in order. Each is put
// together here from a private function that goes through the tests by `?` and leaves what is left of the budget.
#![tactic(auto)]

ghost use Rattle.std.specs.Prelude.{◌≡◌, false, ltb};
ghost use Rattle.reading.specs.declared.Budget.{Budget};
ghost use Rattle.reading.specs.Tests.{◌or◌};
ghost use Rattle.reading.specs.Calls.{short_room, inspection, inspect, decode, settle};
ghost use Rattle.jpeg_price.specs.Charge.{judged, answered};
ghost use Rattle.jpeg_settle.specs.Refiled.{remade};
ghost use Rattle.jpeg_settle.specs.Refiled as filed;
ghost use Rattle.jpeg.specs.Meets.{Meets};
ghost use Rattle.jpeg.specs.Steps.{drawn_as, file_drawn, leaving};

use jpeg_settle::Unfiled;
use reading::{Budget, Decoding, Inspection, Limits, Record, Refusal, Settling, Verdict};

// The record of a file that is accepted.
fn accepted(s: &[u8], colour: bool, limits: Limits, budget: &mut Budget) -> Result<Record, Refusal>
    ensures { inspection (judged result budget.new) ≡ inspect s.now colour limits budget.old }
{
    let found = jpeg_price::admit(s, colour, limits, budget)?;
    jpeg_scan::validate(s, found)?;
    Ok(found)
}

// What a file holds: its record, or the number of the first rule that refuses it.
pub fn inspect(s: &[u8], colour: bool, limits: Limits, mut budget: Budget) -> Inspection
    ensures { result ≡ inspect s.now colour limits budget }
{
    match accepted(s, colour, limits, &mut budget) {
        Ok(found) => Inspection {
            verdict: Ok(()),
            budget,
            found,
        },
        Err(x) => Inspection {
            verdict: Err(x),
            budget,
            found: Record::none(),
        },
    }
}

// Number 7 of decode: a record's length fields against the lengths of the buffers.
fn short_room(output: usize, scratch: usize, found: Record) -> bool
    ensures { result ≡ (ltb output found.output or ltb scratch found.scratch) }
{
    output < found.output || scratch < found.scratch
}

// Decode behind the header, which read one record where another was given: 8 where they differ or the scan is refused. The scan is
// read to its end before the first sample is written, so a refusal writes nothing.
fn draw(s: &[u8], read: Record, found: Record, out: &mut [u8], scratch: &mut [u8]) -> Verdict
    requires { Meets s.now read found out.old scratch.old }
    ensures { (rest : Budget) → leaving (answered (judged result rest)) out.new scratch.new ≡ drawn_as s.now read found out.old scratch.old rest }
{
    if !jpeg_record::same(read, found) {
        return Err(Refusal::NotItsRecord);
    }
    jpeg_scan::draw(s, found, scratch).map_err(|_| Refusal::NotItsRecord)?;
    jpeg_render::picture(found.frame, found.colour, &scratch[..found.scratch], out);
    Ok(())
}

// Decode behind its price: the header, by the record's colour choice, and 8 where it gives no record.
#[tactic(auto, unfolding(crate::specs::Steps::drawn_as, crate::specs::Steps::file_drawn))]
fn draw_file(s: &[u8], found: Record, out: &mut [u8], scratch: &mut [u8]) -> Verdict
    requires { short_room found out.old scratch.old ≡ false }
    ensures { (rest : Budget) → leaving (answered (judged result rest)) out.new scratch.new ≡ file_drawn s.now found out.old scratch.old rest }
{
    let read = jpeg_header::header(s, found.colour).map_err(|_| Refusal::NotItsRecord)?;
    draw(s, read, found, out, scratch)
}

// Decode's tests in their order, and what it leaves of the budget.
#[tactic(auto, unfolding(reading::specs::Calls::decode))]
fn draw_paid(
    s: &[u8],
    found: Record,
    out: &mut [u8],
    scratch: &mut [u8],
    budget: &mut Budget,
) -> Verdict
    ensures { leaving (answered (judged result budget.new)) out.new scratch.new ≡ decode s.now found out.old scratch.old budget.old }
{
    if short_room(out.len(), scratch.len(), found) {
        return Err(Refusal::ShortRoom);
    }
    jpeg_price::charge(s.len(), found.work, budget)?;
    draw_file(s, found, out, scratch)
}

// The block samples and the picture of a file whose record is given; any record may come in. Limits are set aside.
pub fn decode(
    s: &[u8],
    found: Record,
    out: &mut [u8],
    scratch: &mut [u8],
    mut budget: Budget,
) -> Decoding
    ensures { leaving result out.new scratch.new ≡ decode s.now found out.old scratch.old budget }
{
    let verdict = draw_paid(s, found, out, scratch, &mut budget);
    Decoding { verdict, budget }
}

// Settle's tests in their order: the length of the settled file, and what is left of the budget.
fn settled(s: &[u8], limits: Limits, budget: &mut Budget, out: &mut [u8]) -> Result<usize, Unfiled>
    ensures { remade (filed.answered result budget.new) out.new ≡ settle s.now limits budget.old out.old }
{
    let found = jpeg_price::admit(s, false, limits, budget)?;
    jpeg_settle::file(s, found, out)
}

// The settled file of a file that inspect would accept: every byte before the first coded one, then the settled scan. For want of a
// code 9, then 7 where the buffer is too short, with the length that is needed; nothing is written on a refusal.
pub fn settle(s: &[u8], limits: Limits, mut budget: Budget, out: &mut [u8]) -> Settling
    ensures { remade result out.new ≡ settle s.now limits budget out.old }
{
    let filed = settled(s, limits, &mut budget, out);
    jpeg_settle::answered(filed, budget)
}
