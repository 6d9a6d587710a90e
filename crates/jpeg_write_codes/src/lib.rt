// The words of a table's codes: of each symbol its code and the code's length, in one number, so that a symbol is written at one look.
// A sheet has the words of the eight tables of a scan; whether the scan is sure to be written is told from it.
#![tactic(auto)]

ghost use Rattle.std.specs.Prelude.{◌≡◌, ◌+◌, ◌≤◌, length, get_or, replicate};
ghost use Rattle.reading.specs.Huffman.{table_at};
ghost use Rattle.jpeg_write_codes.specs.Words.{code_words, kept};
ghost use Rattle.jpeg_write_codes.specs.Sheets.{sheet, zeros_coded, sure};

use reading::{Record, at_or};

// The word that a symbol has stays. A table that a header read lists no symbol twice; of any other the first code counts.
#[tactic(auto, using(crate::proofs::Filled::kept_new, crate::proofs::Filled::kept_old, crate::proofs::Filled::kept_past))]
fn keep(words: &mut [u32], x: usize, word: u32)
    ensures { words.new ≡ kept words.old x word }
{
    if x < words.len() && words[x] == 0 {
        words[x] = word;
    }
}

// The words of the table at `base`, in one pass over its symbols, one length after the other: `code` is the next code.
fn fill(t: &[u8], base: usize, words: &mut [u32])
    requires { (base + 16 ≤ length t.now) × (words.old ≡ replicate (length words.old) 0) }
    ensures { words.new ≡ code_words (table_at t.now base) (length words.old) }
{
    let mut at = base + 16;
    let mut code = 0usize;
    for bits in 1..17 {
        let full = 1usize << bits;
        code = 2 * code;
        for _ in 0..t[base + bits - 1] {
            if t.len() <= at {
                return;
            }
            let word = 65536 * bits + code % full;
            keep(words, t[at] as usize, word as u32);
            at += 1;
            code += 1;
        }
    }
}

// For each symbol below the number of words its code in the table at `base` of t: 65536 times its length, and the code; 0 where the
// table lists no such symbol. No code has length 0; an Option for each would take twice the memory, which is fixed.
pub fn codes(t: &[u8], base: usize, words: &mut [u32])
    ensures { words.new ≡ code_words (table_at t.now base) (length words.old) }
{
    words.fill(0);
    if 16 <= t.len() && base <= t.len() - 16 {
        fill(t, base, words);
    }
}

// The word of a symbol; 0 behind the last.
pub fn word_of(words: &[u32], x: usize) -> usize
    ensures { result ≡ get_or words.now x 0 }
{
    at_or(words, x, 0) as usize
}

// The words of eight tables, 256 for each. They are one array: memory is fixed, and a symbol is looked up at its own place.
pub fn sheet(t: &[u8], places: [usize; 8]) -> [u32; 2048]
    ensures { result ≡ sheet t.now places }
{
    let mut words = [0u32; 2048];
    for i in 0..8 {
        let a = 256 * i;
        codes(t, places[i], &mut words[a..a + 256]);
    }
    words
}

// In each of the first tables of the sheet the symbol 0 has a word.
fn zeros_coded(words: &[u32], tables: usize) -> bool
    requires { tables ≤ 8 }
    ensures { result ≡ zeros_coded words.now tables }
{
    (0..tables).all(|i| word_of(words, 256 * i) != 0)
}

// Whether a scan of `coded` bytes, if it can be read, can be written too. It never has more than twice those bytes, and 4 for each
// block: the room is taken by halves, so that no sum is past 64 bits. A code can be wanting only for the symbol 0: it ends a block,
// and a place behind a table's symbols reads as it.
#[tactic(auto, using(crate::proofs::Sureness::sure_short, crate::proofs::Sureness::sure_many, crate::proofs::Sureness::sure_room))]
pub fn sure(found: Record, words: &[u32], coded: usize, room: usize) -> bool
    ensures { result ≡ sure found words.now coded room }
{
    let half = room / 2;
    found.blocks <= half / 2
        && coded <= half - 2 * found.blocks
        && found.frame.channels <= 4
        && zeros_coded(words, 2 * found.frame.channels)
}
