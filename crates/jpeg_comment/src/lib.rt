// Comments (the rules' 'Camera notes'): the text of a comment segment before the scan as a part of the caller's own bytes, and whether
// it is there.
#![tactic(auto)]

ghost use Rattle.std.specs.Prelude.{◌≡◌, false, ltb, length, is_ok};
ghost use Rattle.reading.specs.Tests.{◌and◌};
ghost use Rattle.reading.specs.Code.Scans.{scan_of};
ghost use Rattle.reading.specs.Code.Answers.{scan_read};
ghost use Rattle.reading.specs.Reading.{reading};
ghost use Rattle.reading.specs.Comments.{comments, is_accepted, comment_part, comment, has_comment};
ghost use Rattle.jpeg_comment.specs.Accepted.{is_read};

use reading::{Budget, Limits, Part, Presence, Record, Verdict};

// The scan of what the header found is read to its end.
fn is_whole(s: &[u8], found: Record) -> bool
    ensures { result ≡ is_ok (scan_read (scan_of s.now found)) }
{
    jpeg_scan::validate(s, found).is_ok()
}

// The file is accepted, limits set aside.
fn accepted(s: &[u8]) -> bool
    ensures { result ≡ is_read (reading s.now false) }
{
    match jpeg_header::header(s, false) {
        Ok(found) => is_whole(s, found),
        Err(_) => false,
    }
}

// Where the text of comment i stands, counted from 0; empty where there is none or the file is not accepted, limits set aside. The rules' answer
// is then place 0 and length 0, and no Option (`comment_part` of reading's Comments), and C has the two numbers.
pub fn comment_part(s: &[u8], i: usize) -> Part
    ensures { result ≡ comment_part s.now i }
{
    let sought = if accepted(s) {
        jpeg_header::comment(s, i)
    } else {
        None
    };
    sought.unwrap_or(Part { at: 0, length: 0 })
}

// The text of comment i, as a part of the bytes themselves.
pub fn comment(s: &[u8], i: usize) -> &[u8]
    ensures { result.now ≡ comment s.now i }
{
    let Part { at, length } = comment_part(s, i);
    &s[at..at + length]
}

// Comment i is there, in a file with this verdict.
fn is_there(s: &[u8], i: usize, verdict: Verdict) -> bool
    ensures { result ≡ (is_accepted verdict and ltb i (length (comments s.now))) }
{
    verdict.is_ok() && jpeg_header::comment(s, i).is_some()
}

// Whether comment i is there, at inspect's price and with its numbers: an empty text does not tell.
pub fn has_comment(s: &[u8], i: usize, limits: Limits, budget: Budget) -> Presence
    ensures { result ≡ has_comment s.now i limits budget }
{
    let seen = jpeg::inspect(s, false, limits, budget);
    Presence {
        verdict: seen.verdict,
        budget: seen.budget,
        there: is_there(s, i, seen.verdict),
    }
}
