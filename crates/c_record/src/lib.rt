// A record as the functions for C take and give it: 46 numbers. No call is made here; `c_functions` makes them.
#![tactic(auto)]

ghost use Rattle.std.specs.Prelude.{◌≡◌};
ghost use Rattle.c_record.specs.Asked.{asked};
ghost use Rattle.c_record.specs.Flat.{flat, record_of};

use reading::{Frame, Record, Tables};

// A record as numbers of 64 bits, in this order; `include/tillsparrow.h` has the same. The colour choice is 0 or 1, as C has it.
#[repr(C)]
#[derive(Clone, Copy)]
pub struct FlatRecord {
    pub width: usize,
    pub height: usize,
    pub channels: usize,
    pub across: [usize; 4],
    pub down: [usize; 4],
    pub ids: [usize; 4],
    pub qids: [usize; 4],
    pub dcids: [usize; 4],
    pub acids: [usize; 4],
    pub quants: [usize; 4],
    pub dcs: [usize; 4],
    pub acs: [usize; 4],
    pub interval: usize,
    pub start: usize,
    pub blocks: usize,
    pub scratch: usize,
    pub output: usize,
    pub work: u64,
    pub colour: usize,
}

// The fields stand in this impl and in the next: the one struct that C sees and a record with a frame and tables of its own have no part in
// common, and an impl that a macro of the house's own writes is refused. An array goes over by a name that a pattern gives it, since the check
// takes no field that is an array straight into a literal.
impl From<Record> for FlatRecord {
    ghost from_gives = { λ found numbers. numbers ≡ flat found };

    fn from(found: Record) -> Self {
        let Frame {
            across,
            down,
            ids,
            qids,
            ..
        } = found.frame;
        let Tables { quants, dcs, acs } = found.tables;
        let Record { dcids, acids, .. } = found;
        Self {
            width: found.frame.width,
            height: found.frame.height,
            channels: found.frame.channels,
            across,
            down,
            ids,
            qids,
            dcids,
            acids,
            quants,
            dcs,
            acs,
            interval: found.interval,
            start: found.start,
            blocks: found.blocks,
            scratch: found.scratch,
            output: found.output,
            work: found.work,
            colour: usize::from(found.colour),
        }
    }
}

// The record of numbers whose last is 0 or 1.
impl From<FlatRecord> for Record {
    ghost from_gives = { λ numbers found. found ≡ record_of numbers };

    fn from(numbers: FlatRecord) -> Self {
        let FlatRecord {
            across,
            down,
            ids,
            qids,
            dcids,
            acids,
            quants,
            dcs,
            acs,
            ..
        } = numbers;
        Self {
            frame: Frame {
                width: numbers.width,
                height: numbers.height,
                channels: numbers.channels,
                across,
                down,
                ids,
                qids,
            },
            tables: Tables { quants, dcs, acs },
            dcids,
            acids,
            interval: numbers.interval,
            start: numbers.start,
            blocks: numbers.blocks,
            scratch: numbers.scratch,
            output: numbers.output,
            work: numbers.work,
            colour: numbers.colour == 1,
        }
    }
}

// The record to decode by. Where the numbers are no record's it has no channels, so it is no file's, and its sizes and its work are
// those of the numbers.
#[tactic(auto, using(crate::proofs::Flattening::asked_none, crate::proofs::Flattening::asked_so))]
pub fn asked(numbers: FlatRecord) -> Record
    ensures { result ≡ asked numbers }
{
    let mut found = Record::from(numbers);
    if 1 < numbers.colour {
        found.frame.channels = 0;
    }
    found
}
