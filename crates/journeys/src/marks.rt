// Marks beside the places of the arrivals table, while a journey is walked: the mark of a row is one more than the last step up to which a cart that
// arrives there can wait and still be on the way to the journey's end, 0 if it is on no such way. The marks are found from the end backwards, step by
// step: where a marked row stands at a step, the rows from which a cart can cross to it are marked up to the step before.
ghost use Rattle.std.specs.Prelude.{◌≡◌, true, ◌+◌, ◌*◌, ◌≤◌, ◌<◌, length};
ghost use Rattle.intervals.specs.FirstSteps.{Derived};
ghost use Rattle.journeys.specs.Held.{Endable};
ghost use Rattle.journeys.specs.Inner.Lookup.{standing, mark_at, stand_at};
ghost use Rattle.journeys.specs.Inner.Marks.{Raised, CrossesBy, CrossesLater, Enterable, Onto, OntoAny, Passable, MarkedAll, Bared};
ghost use Rattle.journeys.specs.Laws.Tight.{CrossesInto};

use crate::lookup::{Stand, row_at, row_of};
use crate::waits::waiting_row;
use costs::{at_most, corridor_at, end_of, less, multiple, sum, wait_at};
use intervals::first_step;
use sheet::held::HeldSheet;
use sheet::kinds::C_LINE;
use sheet::{Place, Step};

// The mark of row k.
pub fn mark_of(table: &[u32], k: usize) -> u32
    requires { k * 5 + 5 ≤ length table.now }
    ensures { result ≡ mark_at table.now k }
{
    table[k * 5] / 64
}

// Row k gets the mark m, if its own is less.
fn raise(table: &mut [u32], n: usize, k: usize, m: u32)
    requires { (k < n) × (n * 5 ≤ length table.old) × (m ≤ 256) }
    ensures { Raised n table.old table.new m (λ j. j ≡ k) }
{
    let x = table[k * 5];
    if x / 64 < m {
        table[k * 5] = x % 64 + m * 64;
    }
}

// Whether it is settled that a cart which can cross from u to v by corridor l before step t need not be sought: it can wait at u and cross a step later
// as well, at what crossing and waiting at v costs.
fn crosses_later(
    sheet: &HeldSheet,
    since: &[u16],
    settled: bool,
    u: Place,
    v: Place,
    l: usize,
    t: Step,
) -> bool
    requires { (Derived sheet.now since.now) × (u.0 < 64) × (l < length sheet.now.corridors) × (t.0 ≤ 255)
        × (v.0 < 64) }
    ensures { result ≡ true → (settled ≡ true) × CrossesLater sheet.now l u.0 v.0 t.0 }
{
    if !settled {
        return false;
    }
    let c = corridor_at(sheet, l, t);
    let first = first_step(since, u, t);
    let a = wait_at(sheet, u);
    let b = wait_at(sheet, v);
    c.open & (first < t) & at_most(a, b) & at_most(b, a)
}

// Marks the row from which a cart can cross by corridor l and stand as b, up to the step before. `settled` says that the rows from which it can cross
// and stand where b stands after a wait are marked already.
fn mark_over(
    sheet: &HeldSheet,
    since: &[u16],
    table: &mut [u32],
    n: usize,
    b: Stand,
    settled: bool,
    l: usize,
)
    requires { (Enterable sheet.now since.now n table.old (standing b) settled) × (l < length sheet.now.corridors) }
    ensures { Raised n table.old table.new b.step.0
        (λ k. CrossesBy sheet.now (standing b) l (stand_at table.old k)) }
{
    let to = end_of(sheet, l, 1);
    if to != b.place {
        return;
    }
    let step = Step(b.step.0 - 1);
    let c = corridor_at(sheet, l, step);
    if !(c.open & at_most(c.cost, b.cost)) {
        return;
    }
    let place = c.from;
    if crosses_later(sheet, since, settled, place, b.place, l, b.step) {
        return;
    }
    let cost = less(b.cost, c.cost);
    let a = Stand { place, step, cost };
    if let Some(k) = waiting_row(sheet, since, table, n, a) {
        raise(table, n, k, b.step.0);
    }
}

// Marks the rows from which a cart can cross and stand as b, up to the step before.
fn mark_into(sheet: &HeldSheet, since: &[u16], table: &mut [u32], n: usize, b: Stand, settled: bool)
    requires { Enterable sheet.now since.now n table.old (standing b) settled }
    ensures { Raised n table.old table.new b.step.0
        (λ k. CrossesInto sheet.now (stand_at table.old k) (standing b)) }
{
    let count = sheet.count(C_LINE);
    for l in 0..count {
        mark_over(sheet, since, table, n, b, settled, l);
    }
}

// If row k is marked past step t, marks the rows from which a cart can cross and stand at step t where it stands then.
fn mark_row(sheet: &HeldSheet, since: &[u16], table: &mut [u32], n: usize, k: usize, t: Step)
    requires { (Passable sheet.now since.now n table.old t.0) × (k < n) }
    ensures { Raised n table.old table.new t.0
        (Onto sheet.now table.old t.0 k) }
{
    let e = row_at(table, k);
    let mark = mark_of(table, k);
    if !((e.step <= t) & (t.0 < mark)) {
        return;
    }
    let wait = wait_at(sheet, e.place);
    let cost = sum(e.cost, multiple(t.0 - e.step.0, wait));
    let b = Stand {
        place: e.place,
        step: t,
        cost,
    };
    mark_into(sheet, since, table, n, b, t.0 + 1 < mark);
}

// Marks the rows from which a cart can cross and stand at step t where a row marked past it stands then. Rows ascend by step, and those of a later step
// stand nowhere yet.
fn mark_step(sheet: &HeldSheet, since: &[u16], table: &mut [u32], n: usize, t: Step)
    requires { Passable sheet.now since.now n table.old t.0 }
    ensures { Raised n table.old table.new t.0
        (OntoAny sheet.now n table.old t.0) }
{
    for k in 0..n {
        if t.0 < table[k * 5 + 1] {
            return;
        }
        mark_row(sheet, since, table, n, k, t);
    }
}

// Marks the rows that are on the way to the front cost `cost` at the goal at step `arrival`, where no row is marked yet.
// The time grows with the steps up to the arrival, for each with the rows so far, and for each of them that is marked past it with the corridors; a
// row is sought over a corridor that leads there unless that was done a step later and waiting makes no difference.
pub fn mark_ways(
    sheet: &HeldSheet,
    since: &[u16],
    table: &mut [u32],
    n: usize,
    arrival: Step,
    cost: [u32; 3],
)
    requires { Endable sheet.now since.now n table.old arrival.0 cost }
    ensures { MarkedAll sheet.now cost arrival.0 n table.old table.new }
{
    let end = Stand {
        place: sheet.goal(),
        step: arrival,
        cost,
    };
    let Some(k) = row_of(table, n, end) else {
        unreachable!()
    };
    raise(table, n, k, arrival.0 + 1);
    for t in (1..arrival.0 + 1).rev() {
        mark_step(sheet, since, table, n, Step(t));
    }
}

// Takes the marks of the first n rows off.
pub fn clear_marks(table: &mut [u32], n: usize)
    requires { n * 5 ≤ length table.old }
    ensures { Bared n table.old table.new }
{
    for k in 0..n {
        table[k * 5] = table[k * 5] % 64;
    }
}
