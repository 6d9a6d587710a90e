// What is asked of the body of a marker segment (the rules' 'From SOI to SOS'), before any state: each is a test, or a value that a
// body gives. A body is the bytes behind the segment's length; behind its end every byte counts as 0, here as in the definitions, so a
// reader asks for no length. The header's steps stand on these.
#![tactic(auto)]

ghost use Rattle.std.specs.Prelude.{◌≡◌, cond, [], ◌∷◌, map, ◌+◌, ◌*◌, ◌/◌, ◌%◌, ltb, eqb, take};
ghost use Rattle.reading.specs.Tests.{◌and◌, within, apart, all};
ghost use Rattle.reading.specs.Huffman.{sum};
ghost use Rattle.reading.specs.Header.{byte, word, each, quantizer_fits, counts_of, listable, table_fits};
ghost use Rattle.reading.specs.Header.{frame_known, frame_of, sampling_fits, quants_fit, frame_fits, scan_known, in_order, selected, complete};

use reading::{Frame, Mcu, Record};
use std::array;

// ---- bytes; 0 behind the end

pub fn byte_at(body: &[u8], place: usize) -> usize
    ensures { result ≡ byte body.now place }
{
    usize::from(reading::at_or(body, place, 0))
}

// two bytes, high byte first
pub fn word_at(body: &[u8], place: usize) -> usize
    ensures { result ≡ word body.now place }
{
    if place < body.len() {
        256 * byte_at(body, place) + byte_at(body, place + 1)
    } else {
        0
    }
}

// ---- what a frame and a scan say of each channel

// a byte for each of four channels, the first one's at a place and each other's a step behind; 0 behind the last channel
pub fn each(body: &[u8], channels: usize, place: u8, step: u8) -> [usize; 4]
    ensures { result ≡ each channels (λ c. byte body.now (place + step * c)) }
{
    array::from_fn(|c| {
        if c < channels {
            byte_at(body, usize::from(place) + usize::from(step) * c)
        } else {
            0
        }
    })
}

// the high half of each byte
pub fn high_halves(bytes: [usize; 4]) -> [usize; 4]
    ensures { result ≡ map (λ x. x / 16) bytes }
{
    bytes.map(|x| x / 16)
}

// the low half of each byte
pub fn low_halves(bytes: [usize; 4]) -> [usize; 4]
    ensures { result ≡ map (λ x. x % 16) bytes }
{
    bytes.map(|x| x % 16)
}

// ---- quantizers

// an id 0..3 and 64 nonzero bytes
pub fn quantizer_fits(body: &[u8]) -> bool
    ensures { result ≡ quantizer_fits body.now }
{
    65 <= body.len() && byte_at(body, 0) <= 3 && !body[1..65].contains(&0)
}

// ---- Huffman tables

// how many symbols the table in front of a body has: the sum of the 16 counts behind its first byte
pub fn symbols(body: &[u8]) -> usize
    ensures { result ≡ sum (counts_of body.now) }
{
    (1..17).map(|place| byte_at(body, place)).sum()
}

// no symbol twice, and each one that a block takes from a table of the class: a symbol that was met is marked, so the list is walked once
fn symbols_fit(class: usize, symbols: &[u8]) -> bool
    ensures { result ≡ (apart symbols.now and all (listable class) symbols.now) }
{
    let mut met = [false; 256];
    for symbol in symbols {
        let x = usize::from(*symbol);
        if met[x] || !reading::takes(class == 0, x) {
            return false;
        }
        met[x] = true;
    }
    true
}

// class 0 or 1, id 0..3, 16 counts, 1 to 256 symbols, all inside the body, the codes fit, and so do the symbols
pub fn table_fits(body: &[u8]) -> bool
    ensures { result ≡ table_fits body.now }
{
    let first = byte_at(body, 0);
    let count = symbols(body);
    17 <= body.len()
        && first / 16 <= 1
        && first % 16 <= 3
        && reading::within(1, 256, count)
        && 17 + count <= body.len()
        && jpeg_huffman::fits(&body[1..17])
        && symbols_fit(first / 16, &body[17..17 + count])
}

// ---- the frame

// long enough to hold a count, 8 bits, one to four channels
pub fn frame_known(body: &[u8]) -> bool
    ensures { result ≡ frame_known body.now }
{
    6 <= body.len() && byte_at(body, 0) == 8 && reading::within(1, 4, byte_at(body, 5))
}

// the factors of the channels: a single one counts as 1 x 1
fn counted(channels: usize, factors: [usize; 4]) -> [usize; 4]
    ensures { result ≡ cond (eqb channels 1) (1 ∷ 0 ∷ 0 ∷ 0 ∷ []) factors }
{
    if channels == 1 { [1, 0, 0, 0] } else { factors }
}

pub fn frame_of(body: &[u8]) -> Frame
    ensures { result ≡ frame_of body.now }
{
    let channels = byte_at(body, 5);
    let sampling = each(body, channels, 7, 3);
    Frame {
        width: word_at(body, 3),
        height: word_at(body, 1),
        channels,
        across: counted(channels, high_halves(sampling)),
        down: counted(channels, low_halves(sampling)),
        ids: each(body, channels, 6, 3),
        qids: each(body, channels, 8, 3),
    }
}

// the sampling of every channel is 1..4, across and down
fn sampling_fits(body: &[u8]) -> bool
    ensures { result ≡ sampling_fits body.now (byte body.now 5) }
{
    (0..reading::at_or(body, 5, 0)).all(|c| {
        let sampling = byte_at(body, 7 + 3 * usize::from(c));
        reading::within(1, 4, sampling / 16) && reading::within(1, 4, sampling % 16)
    })
}

// quantizer ids 0..3, for every channel
fn quants_fit(frame: Frame) -> bool
    ensures { result ≡ quants_fit frame }
{
    (0..frame.channels).all(|c| reading::at_or(&frame.qids, c, 0) <= 3)
}

// no number stands twice in a list
fn apart(list: &[usize]) -> bool
    ensures { result ≡ apart list.now }
{
    (0..list.len()).all(|i| !list[i + 1..].contains(&list[i]))
}

// the component ids of the channels are apart. Any count of channels may come in, and behind the fourth there is no id
fn ids_apart(frame: Frame) -> bool
    ensures { result ≡ apart (take frame.channels frame.ids) }
{
    apart(&frame.ids[..frame.channels.min(4)])
}

// no zero side, sampling 1..4, quantizer ids 0..3, component ids apart, at most ten blocks in an MCU. A count of channels that no frame
// has does not fit: it has no MCU
pub fn frame_fits(body: &[u8]) -> bool
    ensures { result ≡ (within 1 4 (byte body.now 5) and frame_fits body.now (frame_of body.now)) }
{
    let frame = frame_of(body);
    frame.width != 0
        && frame.height != 0
        && sampling_fits(body)
        && quants_fit(frame)
        && ids_apart(frame)
        && Mcu::of(frame).is_some()
}

// ---- the scan

// the frame's count of components, a body as long as that asks, and 0 63 0 at its end
pub fn scan_known(body: &[u8], channels: usize) -> bool
    ensures { result ≡ scan_known body.now channels }
{
    byte_at(body, 0) == channels && body.len() == 4 + 2 * channels && body.ends_with(&[0, 63, 0])
}

// the components that the scan counts are the frame's, in its order
pub fn in_order(body: &[u8], ids: &[usize]) -> bool
    ensures { result ≡ in_order body.now ids.now (byte body.now 0) }
{
    (0..reading::at_or(body, 0, 0)).all(|c| {
        let c = usize::from(c);
        byte_at(body, 1 + 2 * c) == reading::at_or(ids, c, 0)
    })
}

// both table ids of each component that the scan counts are at most 3
pub fn selected(body: &[u8]) -> bool
    ensures { result ≡ selected body.now (byte body.now 0) }
{
    (0..reading::at_or(body, 0, 0)).all(|c| {
        let ids = byte_at(body, 2 + 2 * usize::from(c));
        ids / 16 <= 3 && ids % 16 <= 3
    })
}

// every channel has its quantizer and its two Huffman tables
pub fn complete(found: Record) -> bool
    ensures { result ≡ complete found }
{
    (0..found.frame.channels).all(|c| {
        reading::chosen(&found.tables.quants, &found.frame.qids, c) != 0
            && reading::chosen(&found.tables.dcs, &found.dcids, c) != 0
            && reading::chosen(&found.tables.acs, &found.acids, c) != 0
    })
}
