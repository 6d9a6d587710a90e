// Whether two records are equal in every field: what number 8 turns on (the rules' 'Refusal numbers'). One comparison, and a crate of its own:
// that the derive compares as the rules' `same` does is proved here, apart from the calls, and README.md and docs/DECISIONS.md name it.
#![tactic(auto)]

ghost use Rattle.std.specs.Prelude.{◌≡◌};
ghost use Rattle.reading.specs.Calls.{same};

use reading::Record;

pub fn same(a: Record, b: Record) -> bool
    ensures { result ≡ same a b }
{
    a == b
}
