// From which steps a place stays free for a while.
ghost use Rattle.std.specs.Prelude.{◌≡◌, ◌≤◌};
ghost use Rattle.intervals.specs.FirstSteps.{Stayable, StayTable};
ghost use Rattle.intervals.specs.Inner.{stay_by};

use crate::first_step;
use sheet::{Place, Step};

// 1 if place v is free from step t to n steps after it, no later than the step `last`; else 0. The run that holds the end begins at t or before.
fn stay_from(since: &[u16], v: Place, last: Step, n: u32, t: Step) -> u8
    requires { (Stayable since.now v.0 last.0 n) × (t.0 ≤ 255) }
    ensures { result ≡ stay_by since.now v.0 last.0 n t.0 }
{
    let end = t.0 + n;
    if last.0 < end {
        return 0;
    }
    let first = first_step(since, v, Step(end));
    if t.0 < first.0 {
        return 0;
    }
    1
}

// For each step 1 if place v is free from it to n steps after it, no later than the step `last`; else 0.
pub fn stays(since: &[u16], v: Place, last: Step, n: u32) -> [u8; 256]
    requires { Stayable since.now v.0 last.0 n }
    ensures { StayTable since.now v.0 last.0 n result }
{
    let mut told = [0u8; 256];
    for t in 0..256 {
        told[t] = stay_from(since, v, last, n, Step(t as u32));
    }
    told
}
