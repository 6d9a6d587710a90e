// Settle for C. It is a crate of its own, and so a part of its own in the archive: settle and decode both read blocks, and where one part
// has both, neither has the reading of a block in its own loop.
#![tactic(auto)]

ghost use Rattle.std.specs.Prelude.{◌≡◌};
ghost use Rattle.reading.specs.Calls.{settle};
ghost use Rattle.c_settle.specs.Flat.{flat_settling, remade, settled};

use reading::{Budget, Limits, Settling};

// What C sees of the answer: C has no enum that holds a refusal, so `number` is 0 or the refusal's, `left` what is left of the budget, and
// `block` and `place` are 0 but where a scan broke.
#[repr(C)]
#[derive(Clone, Copy)]
pub struct Settled {
    pub number: usize,
    pub left: u64,
    pub block: usize,
    pub place: usize,
    pub length: usize,
}

impl From<Settling> for Settled {
    ghost from_gives = { λ seen numbers. numbers ≡ flat_settling seen };

    fn from(seen: Settling) -> Self {
        let named = reading::place_named(seen.verdict);
        Self {
            number: usize::from(reading::number(seen.verdict)),
            left: seen.budget.left,
            block: named.block,
            place: named.place,
            length: seen.length,
        }
    }
}

// The settled file.
#[unsafe(no_mangle)]
pub extern "C" fn tillsparrow_settle(
    bytes: &[u8],
    input: usize,
    side: usize,
    output: usize,
    budget: u64,
    room: &mut [u8],
) -> Settled
    ensures { remade result room.new ≡ settled (settle bytes.now (record { input = input; side = side; output = output }) (record { left = budget }) room.old) }
{
    let limits = Limits {
        input,
        side,
        output,
    };
    Settled::from(jpeg::settle(bytes, limits, Budget::fresh(budget), room))
}
