// Where the rows of a place and step stand.
ghost use Rattle.std.specs.Prelude.{◌≡◌, ◌⊎◌, ◌*◌, ◌<◌, ◌≤◌, length};
ghost use Rattle.arrivals.specs.Rows.{row_at};
ghost use Rattle.arrivals.specs.Inner.Index.{room_of, group_at, low_of, high_of, newest_of, Indexed, Older, Regrouped, NotedAs};
ghost use Rattle.arrivals.specs.Inner.Renoting.{GroupEnd, Noteable, First, StepNoted};

use sheet::{Place, Step};

// The index: from 0 the step past the rows of each place; then, for each step and place, the first row and the row past the last, with the step before. Its
// length for steps below 16, below 64 and below 256.
pub const GROUPS: usize = 64;

pub const SHORT: usize = 2112;

pub const MIDDLE: usize = 8256;

pub const INDEX: usize = 32832;

// The rows from lo to hi.
// Stays: std's Range is not Copy, and a span is read several times.
#[derive(Clone, Copy)]
pub struct Span {
    pub lo: usize,
    pub hi: usize,
}

// Where the numbers of place v and step s stand.
fn group_at(v: Place, s: Step) -> usize
    requires { (v.0 < 64) × (s.0 ≤ 255) }
    ensures { result ≡ group_at s.0 v.0 }
{
    GROUPS + (s.0 as usize * 64 + v.0 as usize) * 2
}

// The rows of place v and step s.
pub fn group(ix: &[u32], v: Place, s: Step) -> Span
    requires { (v.0 < 64) × (s.0 ≤ 255) × (room_of s.0 ≤ length ix.now) }
    ensures { (result.lo ≡ low_of ix.now s.0 v.0) × (result.hi ≡ high_of ix.now s.0 v.0) }
{
    let at = group_at(v, s);
    Span {
        lo: ix[at] as usize,
        hi: (ix[at + 1] / 512) as usize,
    }
}

// The step past the rows of place v.
pub fn newest(ix: &[u32], v: Place) -> Step
    requires { (v.0 < 64) × (64 ≤ length ix.now) }
    ensures { result.0 ≡ newest_of ix.now v.0 }
{
    Step(ix[v.0 as usize])
}

// The step past the rows of place v before step s, as far as the index shows.
pub fn older(ix: &[u32], v: Place, s: Step) -> Step
    requires { (v.0 < 64) × (s.0 ≤ 255) × (room_of s.0 ≤ length ix.now) }
    ensures { Older ix.now s.0 v.0 result.0 }
{
    let at = group_at(v, s);
    let packed = ix[at + 1];
    if ix[at] < packed / 512 {
        return Step(packed % 512);
    }
    s
}

// The step past the rows of place v, or t where that is less.
pub fn latest(ix: &[u32], v: Place, t: Step) -> Step
    requires { (v.0 < 64) × (64 ≤ length ix.now) }
    ensures { (result.0 ≤ t.0) × ((newest_of ix.now v.0 ≤ result.0) ⊎ (result.0 ≡ t.0)) }
{
    newest(ix, v).min(t)
}

// Makes the rows of a span those of place v and step s, before which the rows of v begin below step `back`.
pub fn regroup(ix: &mut [u32], span: Span, v: Place, s: Step, back: Step)
    requires { (v.0 < 64) × (s.0 ≤ 255) × (room_of s.0 ≤ length ix.old) × (span.hi ≤ 8388607) × (span.lo ≤ span.hi) × (back.0 ≤ s.0) }
    ensures { Regrouped ix.old ix.new span.lo span.hi back.0 s.0 v.0 }
{
    let at = group_at(v, s);
    ix[at] = span.lo as u32;
    ix[at + 1] = span.hi as u32 * 512 + back.0;
}

// Notes the rows of a span as those of place v and step s, its newest.
pub fn note(ix: &mut [u32], span: Span, v: Place, s: Step)
    requires { (v.0 < 64) × (s.0 ≤ 255) × (room_of s.0 ≤ length ix.old) × (span.lo ≤ span.hi) × (span.hi ≤ 8388607) }
    ensures { NotedAs ix.old ix.new span.lo span.hi s.0 v.0 }
{
    let back = latest(ix, v, s);
    ix[v.0 as usize] = s.0 + 1;
    regroup(ix, span, v, s, back);
}

// The first row from row k on that is of another place or step than row k, or n.
pub fn group_end(table: &[u32], k: usize, n: usize) -> usize
    requires { (k < n) × (n * 5 ≤ length table.now) }
    ensures { GroupEnd table.now k n result }
{
    let place = table[k * 5];
    let step = table[k * 5 + 1];
    for i in k + 1..n {
        if table[i * 5] != place {
            return i;
        }
        if table[i * 5 + 1] != step {
            return i;
        }
    }
    n
}

// Notes the rows of the step of row k, which is the first of its step, and hands back the row past them.
pub fn note_step(table: &[u32], k: usize, n: usize, ix: &mut [u32]) -> usize
    requires { (k < n) × (Noteable table.now n) × (First table.now k) × (Indexed table.now k ix.old (row_at table.now k).step) }
    ensures { StepNoted table.now k n ix.old ix.new result }
{
    let step = table[k * 5 + 1];
    let mut i = k;
    // Stays: i jumps to the end of a group, no `for` counts it.
    while i < n {
        if table[i * 5 + 1] != step {
            return i;
        }
        let m = group_end(table, i, n);
        note(ix, Span { lo: i, hi: m }, Place(table[i * 5]), Step(step));
        i = m;
    }
    i
}
