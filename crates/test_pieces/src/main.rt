// Runs bench pieces of the rules through the public calls, and writes each with its answer: the
// number, what is left of the budget, the block and the place that it names, and where it says so more.
#![tactic(auto)]

use reading::{Budget, Limits, Record, Verdict};
use std::io;

// frames: 8 x 8 and 16 x 8 in one channel, 8 x 8 in two and in four, 16 x 16 in three, and 65,535 x 65,535 in three and in four
const ONE_BLOCK: &[u8] = b"\xff\xc0\0\x0b\x08\0\x08\0\x08\x01\x01\x11\0";

const TWO_BLOCKS: &[u8] = b"\xff\xc0\0\x0b\x08\0\x08\0\x10\x01\x01\x11\0";

const TWO_CHANNELS: &[u8] = b"\xff\xc0\0\x0e\x08\0\x08\0\x08\x02\x01\x11\0\x02\x11\0";

const FOUR_CHANNELS: &[u8] =
    b"\xff\xc0\0\x14\x08\0\x08\0\x08\x04\x01\x11\0\x02\x11\0\x03\x11\0\x04\x11\0";

const SQUARE: &[u8; 19] = b"\xff\xc0\0\x11\x08\0\x10\0\x10\x03\x01\x11\0\x02\x11\0\x03\x11\0";

const LARGEST: &[u8] = b"\xff\xc0\0\x11\x08\xff\xff\xff\xff\x03\x01\x11\0\x02\x11\0\x03\x11\0";

const LARGEST_OF_FOUR: &[u8] =
    b"\xff\xc0\0\x14\x08\xff\xff\xff\xff\x04\x01\x11\0\x02\x11\0\x03\x11\0\x04\x11\0";

// 16 x 8 in one channel, and a restart before the second block
const RESTARTING: &[u8] = b"\xff\xc0\0\x0b\x08\0\x08\0\x10\x01\x01\x11\0\xff\xdd\0\x04\0\x01";

// DC tables: one code; two, which both mean 0; the codes 0, 10 and 110 for the categories 11, 1 and 2
const DC: &[u8] = b"\xff\xc4\0\x14\0\x01\0\0\0\0\0\0\0\0\0\0\0\0\0\0\0\0";

const TWO_ZEROS: &[u8; 23] = b"\xff\xc4\0\x15\0\x01\x01\0\0\0\0\0\0\0\0\0\0\0\0\0\0\0\0";

const CATEGORIES: &[u8] = b"\xff\xc4\0\x16\0\x01\x01\x01\0\0\0\0\0\0\0\0\0\0\0\0\0\x0b\x01\x02";

// AC tables: one code, for the end of a block; the codes 0 for the end and 10 for a run of 16 zeros
const AC: &[u8] = b"\xff\xc4\0\x14\x10\x01\0\0\0\0\0\0\0\0\0\0\0\0\0\0\0\0";

const RUNS: &[u8; 23] = b"\xff\xc4\0\x15\x10\x01\x01\0\0\0\0\0\0\0\0\0\0\0\0\0\0\0\xf0";

// heads of a scan: one channel, two, three and four
const ONE_SCAN: &[u8] = b"\xff\xda\0\x08\x01\x01\0\0\x3f\0";

const TWO_SCAN: &[u8] = b"\xff\xda\0\x0a\x02\x01\0\x02\0\0\x3f\0";

const THREE_SCAN: &[u8] = b"\xff\xda\0\x0c\x03\x01\0\x02\0\x03\0\0\x3f\0";

const FOUR_SCAN: &[u8] = b"\xff\xda\0\x0e\x04\x01\0\x02\0\x03\0\x04\0\0\x3f\0";

// A file into a buffer of ones: the start, a quantizer of 64 ones, which stand there already, the frame, the two tables, the scan's
// head, its coded bytes and the end.
fn file(s: &mut [u8], frame: &[u8], dc: &[u8], ac: &[u8], scan: &[u8], coded: &[u8]) {
    tillsparrow_streams::put(s, 0, b"\xff\xd8\xff\xdb\0\x43\0");
    let mut at = 71;
    for part in [frame, dc, ac, scan, coded, b"\xff\xd9"] {
        at = tillsparrow_streams::put(s, at, part);
    }
}

// A file of one channel, 8 x 8.
fn block(s: &mut [u8], dc: &[u8], ac: &[u8], coded: &[u8]) {
    file(s, ONE_BLOCK, dc, ac, ONE_SCAN, coded);
}

// a piece's name, its number, what is left of the budget, the block and the place
fn answered(rt: &impl Print, name: &str, verdict: Verdict, left: Budget) -> io::Result<()> {
    let named = reading::place_named(verdict);
    print!(rt;
        "{name} {} {} {} {}",
        reading::number(verdict),
        left.left,
        named.block,
        named.place
    )
}

fn inspect(rt: &impl Print, name: &str, s: &[u8], limits: Limits, budget: u64) -> io::Result<()> {
    let answer = jpeg::inspect(s, true, limits, Budget::fresh(budget));
    answered(rt, name, answer.verdict, answer.budget)?;
    println!(rt; "")
}

// the numbers of a record: blocks, scratch, output, work; zeros of one that is refused
fn header(rt: &impl Print, name: &str, s: &[u8]) -> io::Result<()> {
    let head = jpeg_header::header(s, true);
    let number = match head {
        Ok(_) => 0,
        Err(x) => x.number(),
    };
    let found = head.unwrap_or(Record::none());
    println!(rt;
        "{name} {number} {} {} {} {}",
        found.blocks, found.scratch, found.output, found.work
    )
}

fn largest(rt: &impl Print, s: &[u8]) -> io::Result<()> {
    header(rt, "largest picture, header", s)?;
    inspect(
        rt,
        "largest picture, limits",
        s,
        tillsparrow_streams::limits(),
        u64::MAX,
    )?;
    inspect(
        rt,
        "largest picture, budget 302",
        s,
        tillsparrow_streams::no_limits(),
        302,
    )?;
    inspect(
        rt,
        "largest picture, budget 303",
        s,
        tillsparrow_streams::no_limits(),
        303,
    )?;
    inspect(
        rt,
        "largest picture, one short of work",
        s,
        tillsparrow_streams::no_limits(),
        644244701489,
    )?;
    inspect(
        rt,
        "largest picture, work",
        s,
        tillsparrow_streams::no_limits(),
        644244701490,
    )
}

// the same size in four channels
fn largest_of_four(rt: &impl Print) -> io::Result<()> {
    let mut s = [1; 156];
    file(&mut s, LARGEST_OF_FOUR, DC, AC, FOUR_SCAN, b"\x3f");
    header(rt, "largest picture of four channels, header", &s)?;
    inspect(
        rt,
        "largest picture of four channels, one short of work",
        &s,
        tillsparrow_streams::no_limits(),
        858992935228,
    )
}

// the same, the settled length, and the byte at a place of the buffer
fn settle(rt: &impl Print, name: &str, s: &[u8], at: usize) -> io::Result<()> {
    let mut out = [0; 150];
    let answer = jpeg::settle(
        s,
        tillsparrow_streams::limits(),
        Budget::fresh(10000),
        &mut out,
    );
    answered(rt, name, answer.verdict, answer.budget)?;
    print!(rt; " {}", answer.length)?;
    if let Some(byte) = out.get(at) {
        print!(rt; " {byte}")?;
    }
    println!(rt; "")
}

// the settled pieces: the coded byte is 63 in each that is accepted, and nothing is written of those that are refused
fn settled(rt: &impl Print) -> io::Result<()> {
    let mut one = [1; 141];
    block(&mut one, DC, AC, b"\x3f");
    settle(rt, "P1, byte 63", &one, 138)?;
    let mut runs = [1; 142];
    block(&mut runs, DC, RUNS, b"\x4f");
    settle(rt, "P2, byte 79", &runs, 139)?;
    block(&mut runs, DC, RUNS, b"\x54");
    settle(rt, "P3, byte 84", &runs, 139)?;
    settle(rt, "P3, the first byte", &runs, 0)?;
    settle(rt, "P3, the last byte", &runs, 141)?;
    settle(rt, "P3, the byte behind", &runs, 142)?;
    let mut fourth = [1; 143];
    block(&mut fourth, DC, RUNS, b"\x55\x7f");
    settle(rt, "P4, a fourth run", &fourth, 139)?;
    let mut twice = [1; 142];
    block(&mut twice, TWO_ZEROS, AC, b"\x9f");
    settle(rt, "P5, a symbol twice", &twice, 139)
}

// a table of two codes whose second symbol is another
fn second(table: &[u8; 23], symbol: u8) -> [u8; 23] {
    let mut table = *table;
    table[22] = symbol;
    table
}

// F with these tables, of which one has a code more
fn with_tables(rt: &impl Print, name: &str, dc: &[u8], ac: &[u8]) -> io::Result<()> {
    let mut s = [1; 142];
    block(&mut s, dc, ac, b"\x3f");
    inspect(rt, name, &s, tillsparrow_streams::limits(), 10000)
}

// tables that list a symbol twice, or one that a block never takes, and their neighbours
fn tables(rt: &impl Print) -> io::Result<()> {
    for (name, symbol) in [("DC 0 and 0", 0), ("DC 0 and 11", 11), ("DC 0 and 12", 12)] {
        with_tables(rt, name, &second(TWO_ZEROS, symbol), AC)?;
    }
    for (name, symbol) in [
        ("AC 0 and 0", 0),
        ("AC 0 and 11", 11),
        ("AC 0 and 16", 16),
        ("AC 0 and 224", 224),
        ("AC 0 and 240", 240),
        ("AC 0 and 250", 250),
    ] {
        with_tables(rt, name, DC, &second(RUNS, symbol))?;
    }
    Ok(())
}

// two blocks with the coded byte 63 each, and bytes between them and behind them
fn between(s: &mut [u8], coded: &[u8]) {
    file(s, RESTARTING, DC, AC, ONE_SCAN, coded);
}

// fill before a restart and before 217: the settled file has 150 bytes, the restart's code at 146 and 217 at 149; what else may not stand behind fill
fn fill(rt: &impl Print) -> io::Result<()> {
    let mut none = [1; 150];
    between(&mut none, b"\x3f\xff\xd0\x3f");
    settle(rt, "no fill", &none, 146)?;
    let mut one = [1; 151];
    between(&mut one, b"\x3f\xff\xff\xd0\x3f");
    settle(rt, "1 before a restart", &one, 146)?;
    between(&mut one, b"\x3f\xff\xd0\x3f\xff");
    settle(rt, "1 before 217", &one, 149)?;
    let mut three = [1; 153];
    between(&mut three, b"\x3f\xff\xff\xff\xff\xd0\x3f");
    settle(rt, "3 before a restart", &three, 146)?;
    between(&mut three, b"\x3f\xff\xd0\x3f\xff\xff\xff");
    settle(rt, "3 before 217", &three, 149)?;
    between(&mut three, b"\x3f\xff\xff\x3f\xff\xd0\x3f");
    settle(rt, "fill, then a byte of data", &three, 146)?;
    between(&mut three, b"\x3f\xff\xff\xd1\xff\xd0\x3f");
    settle(rt, "fill, then a wrong marker", &three, 146)
}

// codes for 240 and for a run of 14 with 9 bits: the last byte is 255 when it is padded, and its 0 follows
fn full_byte(rt: &impl Print) -> io::Result<()> {
    let mut table = *RUNS;
    table[21] = 240;
    table[22] = 233;
    let mut s = [1; 146];
    block(&mut s, DC, &table, b"\x0b\xff\0\xff\xff");
    settle(rt, "a padded 255, its 0, fill", &s, 141)?;
    block(&mut s, DC, &table, b"\x0b\xff\xff\xff\xff");
    settle(rt, "a padded 255, fill", &s, 141)
}

// F with a 255 too many, or a byte behind its end
fn stray(rt: &impl Print) -> io::Result<()> {
    let mut s = [1; 142];
    block(&mut s, DC, AC, b"\x3f");
    inspect(
        rt,
        "a byte behind 217",
        &s,
        tillsparrow_streams::limits(),
        10000,
    )?;
    block(&mut s, DC, AC, b"\x3f\xff");
    inspect(rt, "fill", &s, tillsparrow_streams::limits(), 10000)?;
    s[141] = 255;
    inspect(
        rt,
        "fill, no marker",
        &s,
        tillsparrow_streams::limits(),
        10000,
    )?;
    block(&mut s, DC, AC, b"\x3e\xff");
    inspect(
        rt,
        "fill, padding not complete",
        &s,
        tillsparrow_streams::limits(),
        10000,
    )?;
    block(&mut s, DC, AC, b"\xff\xff");
    inspect(
        rt,
        "fill where a bit is wanted",
        &s,
        tillsparrow_streams::limits(),
        10000,
    )
}

// the same of the first n bytes of a file
fn judge(rt: &impl Print, name: &str, s: &[u8], n: usize) -> io::Result<()> {
    if let Some(first) = s.get(..n) {
        inspect(rt, name, first, tillsparrow_streams::limits(), 10000)?;
    }
    Ok(())
}

// scans that break in their first block, which begins at 138, or at their end, where the block count is 1 and the place 139
fn broken_at_once(rt: &impl Print) -> io::Result<()> {
    let mut f = [1; 141];
    block(&mut f, DC, AC, b"\x3f");
    judge(rt, "cut before its block", &f, 138)?;
    judge(rt, "cut before 255", &f, 139)?;
    judge(rt, "cut before 217", &f, 140)?;
    f[138] = 255;
    judge(rt, "a 255 as the last byte", &f, 139)?;
    f[138] = 254;
    judge(rt, "eight bits, then no byte", &f, 139)?;
    judge(rt, "eight bits, then a bare 255", &f, 141)?;
    let mut more = [1; 142];
    block(&mut more, DC, AC, b"\xff\x01");
    judge(rt, "a bare 255", &more, 142)?;
    block(&mut more, DC, AC, b"\xfe\xfe");
    judge(rt, "sixteen bits and no code", &more, 142)
}

// scans that break behind a restart: its block is number 1, and its turn begins at 145, before the restart
fn broken_behind_a_restart(rt: &impl Print) -> io::Result<()> {
    let mut two = [1; 150];
    between(&mut two, b"\x3f\xff\xd0\x3f");
    judge(rt, "cut before the restart", &two, 145)?;
    judge(rt, "cut in the restart", &two, 146)?;
    judge(rt, "cut behind the restart", &two, 147)?;
    judge(rt, "cut before the end of two", &two, 149)?;
    let mut more = [1; 151];
    between(&mut more, b"\x3f\xff\xd0\xff\x01");
    judge(rt, "a bare 255 behind a restart", &more, 151)?;
    between(&mut more, b"\x3f\xff\xd0\xfe\xfe");
    judge(rt, "no code behind a restart", &more, 151)?;
    between(&mut more, b"\x3f\xff\xff\xd1\x3f");
    judge(rt, "a wrong restart behind fill", &more, 151)
}

// two and four channels with a block of zeros in each, at their price and one below it
fn channels(rt: &impl Print) -> io::Result<()> {
    let mut two = [1; 146];
    file(&mut two, TWO_CHANNELS, DC, AC, TWO_SCAN, b"\x0f");
    header(rt, "two channels, header", &two)?;
    inspect(
        rt,
        "two channels at 6693",
        &two,
        tillsparrow_streams::limits(),
        6693,
    )?;
    let mut four = [1; 156];
    file(&mut four, FOUR_CHANNELS, DC, AC, FOUR_SCAN, b"\0");
    header(rt, "four channels, header", &four)?;
    inspect(
        rt,
        "four channels at 13113",
        &four,
        tillsparrow_streams::limits(),
        13113,
    )?;
    inspect(
        rt,
        "four channels at 13112",
        &four,
        tillsparrow_streams::limits(),
        13112,
    )?;
    four[90] = 1;
    header(rt, "four channels, two of one id", &four)
}

// the header of 16 x 16 in three channels whose sampling bytes are given
fn sampled(rt: &impl Print, name: &str, a: u8, b: u8, c: u8) -> io::Result<()> {
    let mut frame = *SQUARE;
    frame[11] = a;
    frame[14] = b;
    frame[17] = c;
    let mut s = [1; 151];
    file(&mut s, &frame, DC, AC, THREE_SCAN, b"\x3f");
    header(rt, name, &s)
}

// sums of products up to 10 and above, and factors outside 1 to 4
fn sampling(rt: &impl Print) -> io::Result<()> {
    sampled(rt, "2 x 2, 1 x 1, 1 x 1", 0x22, 0x11, 0x11)?;
    sampled(rt, "2 x 2, 1 x 2, 1 x 2", 0x22, 0x12, 0x12)?;
    sampled(rt, "1 x 1, 2 x 2, 1 x 1", 0x11, 0x22, 0x11)?;
    sampled(rt, "3 x 1, 2 x 2, 1 x 3", 0x31, 0x22, 0x13)?;
    sampled(rt, "4 x 2, 1 x 1, 1 x 1", 0x42, 0x11, 0x11)?;
    sampled(rt, "4 x 2, 1 x 1, 1 x 2", 0x42, 0x11, 0x12)?;
    sampled(rt, "1 x 1, 1 x 1, 1 x 4", 0x11, 0x11, 0x14)?;
    sampled(rt, "1 x 1, 1 x 1, 1 x 5", 0x11, 0x11, 0x15)?;
    sampled(rt, "1 x 1, 0 x 1, 1 x 1", 0x11, 0x01, 0x11)
}

// every piece, in the order of the lines
fn pieces(rt: &impl Print) -> io::Result<()> {
    let mut f = [1; 141];
    block(&mut f, DC, AC, b"\x3f");
    inspect(rt, "F at 3483", &f, tillsparrow_streams::limits(), 3483)?;
    inspect(rt, "F at 3482", &f, tillsparrow_streams::limits(), 3482)?;
    inspect(rt, "F at 283", &f, tillsparrow_streams::limits(), 283)?;
    inspect(rt, "F at 282", &f, tillsparrow_streams::limits(), 282)?;
    header(rt, "F, header", &f)?;
    let none = [];
    inspect(rt, "empty at 0", &none, tillsparrow_streams::limits(), 0)?;
    inspect(rt, "empty at 1", &none, tillsparrow_streams::limits(), 1)?;
    let mut falling = [1; 145];
    file(
        &mut falling,
        TWO_BLOCKS,
        CATEGORIES,
        AC,
        ONE_SCAN,
        b"\0\x04\x7f",
    );
    inspect(
        rt,
        "prediction -2048",
        &falling,
        tillsparrow_streams::limits(),
        10000,
    )?;
    file(
        &mut falling,
        TWO_BLOCKS,
        CATEGORIES,
        AC,
        ONE_SCAN,
        b"\0\x06\x5f",
    );
    inspect(
        rt,
        "prediction -2049",
        &falling,
        tillsparrow_streams::limits(),
        10000,
    )?;
    let mut s = [1; 151];
    file(&mut s, LARGEST, DC, AC, THREE_SCAN, b"\x3f");
    largest(rt, &s)?;
    largest_of_four(rt)?;
    settled(rt)?;
    tables(rt)?;
    fill(rt)?;
    full_byte(rt)?;
    stray(rt)?;
    broken_at_once(rt)?;
    broken_behind_a_restart(rt)?;
    channels(rt)?;
    sampling(rt)
}

fn main(rt: HostRuntime) -> io::Result<()> {
    pieces(&rt)
}
