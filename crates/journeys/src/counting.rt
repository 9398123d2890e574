// Which arrivals at the goal count (document 02, E2): for each step 1 if an arrival then counts, 0 if not, so that a row of the arrivals table is
// told by its step.
ghost use Rattle.std.specs.Prelude.{◌≡◌};
ghost use Rattle.journeys.specs.Inner.{counts_at};
ghost use Rattle.journeys.specs.Inner.Counting.{Countable, CountingIn};

use intervals::stays::stays;
use sheet::{Place, Step};

// Whether an arrival at the goal at a step counts.
// Stays: bytes and no `bool`, since the functions of the front promise an answer for any byte (`counts_at`).
pub fn counts_at(counting: &[u8], step: Step) -> bool
    ensures { result ≡ counts_at counting.now step.0 }
{
    let t = step.0 as usize;
    t < counting.len() && counting[t] == 1
}

// For each step whether an arrival at the goal then counts, on the sheet in the array with the first steps of its free runs: the goal is free
// from it to the step at which the cart has unloaded, which is no later than the last step.
pub fn counting_of(all: &[u32], since: &[u16]) -> [u8; 256]
    requires { Countable all.now since.now }
    ensures { CountingIn all.now since.now result }
{
    stays(since, Place(all[3]), Step(all[1]), all[4])
}
