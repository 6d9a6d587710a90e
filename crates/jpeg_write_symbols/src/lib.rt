// What is written next of a block of levels (the rules' 'The settled scan'): a symbol and a field behind it, by the zeros that wait
// and the level that ends them.
#![tactic(auto)]

ghost use Rattle.std.specs.Prelude.{◌≡◌, ◌≤◌, ◌<◌, length};
ghost use Rattle.reading.specs.Settled.{field_of};
ghost use Rattle.jpeg_write_symbols.specs.Turns.{category_of, zeros_at, over, value_at, plain_turn, turn_at};

// The smallest category, at most 12, of a value at the distance m from 0.
#[tactic(auto, using(crate::proofs::Turning::category_is))]
fn category(m: usize) -> usize
    ensures { result ≡ category_of m }
{
    (64 - m.leading_zeros() as usize).min(12)
}

// The n-bit field that means d.
fn field_of(n: usize, d: i64) -> usize
    requires { n ≤ 12 }
    ensures { result ≡ field_of n d }
{
    let m = d.unsigned_abs() as usize;
    if d < 0 {
        return ((1usize << n) - 1).saturating_sub(m);
    }
    m
}

// The value that stands for the level at a place: of the first its difference from the prediction.
fn value_at(levels: &[i16], pred: i32, place: usize) -> i64
    requires { place < length levels.now }
    ensures { result ≡ value_at levels.now pred place }
{
    let level = i64::from(levels[place]);
    if place == 0 {
        return level - i64::from(pred);
    }
    level
}

// How many levels from a place on are zero; none at the first place, whose level is written in any case.
pub fn zeros_from(levels: &[i16], place: usize) -> usize
    ensures { result ≡ zeros_at levels.now place }
{
    if place == 0 {
        return 0;
    }
    for k in place..levels.len() {
        if levels[k] != 0 {
            return k - place;
        }
    }
    levels.len().saturating_sub(place)
}

// All is written: the levels are at their end, and no zeros wait for the end code.
#[tactic(auto, unfolding(crate::specs::Turns::over))]
pub fn is_over(count: usize, place: usize, run: usize) -> bool
    ensures { result ≡ over count place run }
{
    count <= place && run == 0
}

// What is written next of a block: a symbol, the low `size` bits of a field behind it; and from which place on, behind how
// many zeros, the block goes on.
#[derive(Clone, Copy)]
pub struct Turn {
    pub symbol: usize,
    pub field: usize,
    pub size: usize,
    pub place: usize,
    pub run: usize,
}

impl Turn {
    // a symbol with no field
    fn plain(symbol: usize, place: usize, run: usize) -> Self
        ensures { result ≡ plain_turn symbol place run }
    {
        Self {
            symbol,
            field: 0,
            size: 0,
            place,
            run,
        }
    }
}

// The end code behind the last level, 240 for sixteen of the zeros that wait, or a level that is not zero.
pub fn next(levels: &[i16], pred: i32, place: usize, run: usize) -> Turn
    ensures { result ≡ turn_at levels.now pred place run }
{
    if levels.len() <= place {
        return Turn::plain(0, place, 0);
    }
    if 16 <= run {
        return Turn::plain(240, place, run - 16);
    }
    let d = value_at(levels, pred, place);
    let size = category(d.unsigned_abs() as usize);
    Turn {
        symbol: 16 * run + size,
        field: field_of(size, d),
        size,
        place: place + 1,
        run: 0,
    }
}
