// Settle behind its tests: the scan is settled at its place in the buffer, behind the head's, and then the head is copied before it.
// Any record may come in.
#![tactic(auto)]

ghost use Rattle.std.specs.Prelude.{◌≡◌, ◌+◌, ◌≤◌, ◌<◌, ◌^◌, ◌++◌, length, take, drop};
ghost use Rattle.reading.specs.declared.Budget.{Budget};
ghost use Rattle.reading.specs.Code.Scans.{settled_of, scan_settled, refusal_of};
ghost use Rattle.jpeg_settle.specs.declared.Unfiled.TheVariants.{Refused};
ghost use Rattle.jpeg_settle.specs.Refiled.{answered, remade, scan_laid, joined, refiled};

use reading::{Budget, Limits, Record, Refusal, Settling, Unsettled};

// Why no file was settled: number 7, with the length that is needed, or another refusal, which has none.
#[derive(Clone, Copy, Debug, PartialEq, Eq)]
pub enum Unfiled {
    Short(usize),
    Refused(Refusal),
}

impl From<Refusal> for Unfiled {
    ghost from_gives = { λ x u. u ≡ Refused x };

    fn from(x: Refusal) -> Self {
        Self::Refused(x)
    }
}

impl From<Unsettled> for Unfiled {
    ghost from_gives = { λ w u. u ≡ Refused (refusal_of w) };

    fn from(w: Unsettled) -> Self {
        Self::Refused(Refusal::from(w))
    }
}

// The length of the settled file, or why there is none, as settle answers it, with what is left of the budget.
pub fn answered(filed: Result<usize, Unfiled>, budget: Budget) -> Settling
    ensures { result ≡ answered filed budget }
{
    let (verdict, length) = match filed {
        Ok(length) => (Ok(()), length),
        Err(Unfiled::Short(length)) => (Err(Refusal::ShortRoom), length),
        Err(Unfiled::Refused(x)) => (Err(x), 0),
    };
    Settling {
        verdict,
        budget,
        length,
    }
}

// The settled scan, at its place in a buffer that reaches so far; a shorter buffer has room for no part of it.
fn scan(s: &[u8], found: Record, out: &mut [u8]) -> Result<usize, Unsettled>
    ensures { (result ≡ scan_settled (settled_of s.now found)) × (out.new ≡ scan_laid found.start (settled_of s.now found) out.old) }
{
    let start = found.start.min(out.len());
    jpeg_write_scan::settled(s, found, &mut out[start..])
}

// The first n bytes. Byte by byte: a copy of slices of any length is a call of `memmove`, which the archive for C does without.
fn copy(s: &[u8], n: usize, out: &mut [u8])
    requires { (n ≤ length s.now) × (n ≤ length out.old) }
    ensures { out.new ≡ take n s.now ++ drop n out.old }
{
    for i in 0..n {
        out[i] = s[i];
    }
}

// Behind a scan of n bytes: 7, or the head before it.
#[tactic(auto, unfolding(crate::specs::Refiled::joined))]
fn join(s: &[u8], start: usize, n: usize, out: &mut [u8]) -> Result<usize, Unfiled>
    requires { (start ≤ length s.now) × (start + n < 2 ^ 64) }
    ensures { (rest : Budget) → remade (answered result rest) out.new ≡ joined s.now start n rest out.old }
{
    let length = start + n;
    if out.len() < length {
        return Err(Unfiled::Short(length));
    }
    copy(s, start, out);
    Ok(length)
}

// The settled file of a record whose scan is not yet read. No slice is as long as is tested first: the test keeps the length whole
// without that.
pub fn file(s: &[u8], found: Record, out: &mut [u8]) -> Result<usize, Unfiled>
    ensures { (rest : Budget) → remade (answered result rest) out.new ≡ refiled s.now found rest out.old }
{
    if Limits::UNCOUNTED <= s.len() {
        return Err(Unfiled::from(Refusal::TooLong));
    }
    let n = scan(s, found, out)?;
    join(s, found.start, n, out)
}
