// What a call takes before the scan is read. Inspect and settle test as they go (the rules' 'Refusal numbers': 1, 2 for the header, those
// of the header, 6, 2 for work) and take in two parts; decode, which has its record, takes all at once. What is taken leaves the budget
// that was lent; on a refusal the budget is what is left then.
#![tactic(auto)]

ghost use Rattle.std.specs.Prelude.{◌≡◌, ◌+◌, ◌*◌, ◌^◌, ◌<◌, ltb, leb};
ghost use Rattle.reading.specs.Tests.{◌or◌};
ghost use Rattle.reading.specs.Judging.{pay};
ghost use Rattle.reading.specs.Calls.{too_large, inspection};
ghost use Rattle.jpeg_price.specs.Admission.{weighed, admitted};
ghost use Rattle.jpeg_price.specs.Charge.{judged, answered, charged};

use reading::{Budget, Limits, Record, Refusal};

// 2n + 1 does not fit 64 bits. No slice is so long; the test keeps the price whole without that.
fn past_counting(n: usize) -> bool
    ensures { result ≡ leb (2 ^ 64) (2 * n + 1) }
{
    Limits::UNCOUNTED <= n
}

// Number 1.
fn too_long(n: usize, limit: usize) -> bool
    ensures { result ≡ (ltb limit n or leb (2 ^ 64) (2 * n + 1)) }
{
    limit < n || past_counting(n)
}

// The header's price, where it fits 64 bits.
fn header_price(n: usize) -> u64
    requires { 2 * n + 1 < 2 ^ 64 }
    ensures { result ≡ 2 * n + 1 }
{
    Budget::FILE_BYTE * (n as u64) + Budget::FILE
}

// A price is taken whole, or, where the budget is below it, refused with nothing taken.
fn pay(price: u64, x: Refusal, budget: &mut Budget) -> Result<(), Refusal>
    ensures { judged result budget.new ≡ pay price x budget.old }
{
    budget.left = budget.left.checked_sub(price).ok_or(x)?;
    Ok(())
}

// Number 6.
fn too_large(limits: Limits, found: Record) -> bool
    ensures { result ≡ too_large limits found }
{
    limits.side < found.frame.width
        || limits.side < found.frame.height
        || limits.output < found.scratch
        || limits.output < found.output
}

// A record against limits and budget: 6, then 2 for work, which is taken where the record is accepted.
#[tactic(auto, unfolding(crate::specs::Admission::weighed))]
fn weigh(limits: Limits, found: Record, budget: &mut Budget) -> Result<Record, Refusal>
    ensures { inspection (judged result budget.new) ≡ weighed limits budget.old found }
{
    if too_large(limits, found) {
        return Err(Refusal::TooLarge);
    }
    pay(found.work, Refusal::WorkOverBudget, budget)?;
    Ok(found)
}

// What inspect and settle test before the scan is read: 1, 2 for the header, the header, 6, 2 for work. The budget is looked at
// before the first byte.
#[tactic(auto, unfolding(crate::specs::Admission::admitted, crate::specs::Admission::weighed))]
pub fn admit(s: &[u8], colour: bool, limits: Limits, budget: &mut Budget) -> Result<Record, Refusal>
    ensures { inspection (judged result budget.new) ≡ admitted s.now colour limits budget.old }
{
    let n = s.len();
    if too_long(n, limits.input) {
        return Err(Refusal::TooLong);
    }
    pay(header_price(n), Refusal::OverBudget, budget)?;
    weigh(limits, jpeg_header::header(s, colour)?, budget)
}

// What decode takes, at once: 2n + 1 and the work of the record that was given, as whole numbers. Where the budget is below their sum, 2,
// and nothing is taken: both are paid of a copy. No budget has a sum that does not fit 64 bits.
#[tactic(auto, unfolding(crate::specs::Charge::charged))]
pub fn charge(n: usize, work: u64, budget: &mut Budget) -> Result<(), Refusal>
    ensures { answered (judged result budget.new) ≡ charged n work budget.old }
{
    // the number is read before the test, since from there on it is known to fit 64 bits
    let mut rest = Budget::fresh(budget.left);
    if past_counting(n) {
        return Err(Refusal::OverBudget);
    }
    pay(header_price(n), Refusal::OverBudget, &mut rest)?;
    pay(work, Refusal::OverBudget, &mut rest)?;
    *budget = rest;
    Ok(())
}
