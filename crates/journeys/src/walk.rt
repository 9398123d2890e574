// The journey of a front cost, walked from its start: at each step the lowest place from which the rest of the cost can still be met at the arrival.
ghost use Rattle.std.specs.Prelude.{◌≡◌, ◌+◌, ◌≤◌, ◌<◌, length};
ghost use Rattle.std.proofs.lemmas.List.Edits.{sets};
ghost use Rattle.sheet.specs.Laws.Decided.{Decided};
ghost use Rattle.journeys.specs.Computed.{journey_of};
ghost use Rattle.journeys.specs.Held.{Layable};
ghost use Rattle.journeys.specs.Inner.Lookup.{standing};
ghost use Rattle.journeys.specs.Inner.Waits.{Rowed};
ghost use Rattle.journeys.specs.Inner.Walk.{Marked, Walkable, LowestOf, LowestNext};

use crate::lookup::Stand;
use crate::marks::{clear_marks, mark_of, mark_ways};
use crate::waits::waiting_row;
use costs::{corridor_at, end_of, sum, wait_at};
use sheet::held::HeldSheet;
use sheet::kinds::C_LINE;
use sheet::{Place, Step};

// Whether a cart that stands as a is on the way: a row from which it stands so by waiting is marked past a's step.
fn is_marked(sheet: &HeldSheet, since: &[u16], table: &[u32], n: usize, a: Stand) -> bool
    requires { (Rowed sheet.now since.now n table.now) × (a.place.0 < 64) × (a.step.0 ≤ 255) }
    ensures { Decided (Marked sheet.now n table.now (standing a)) result }
{
    let Some(k) = waiting_row(sheet, since, table, n, a) else {
        return false;
    };
    a.step.0 < mark_of(table, k)
}

// Where a cart that stands as `at` stands after a wait, if that is on the way; at place 64 if it is not.
fn next_wait(sheet: &HeldSheet, since: &[u16], table: &[u32], n: usize, at: Stand) -> Stand
    requires { Walkable sheet.now since.now n table.now (standing at) }
    ensures { LowestOf sheet.now n table.now (standing at) 0 (standing result) }
{
    let cost = sum(at.cost, wait_at(sheet, at.place));
    let step = Step(at.step.0 + 1);
    let place = at.place;
    let stay = Stand { place, step, cost };
    if is_marked(sheet, since, table, n, stay) {
        return stay;
    }
    // Stays: place 64 is above every place, so that `next_over` finds the lowest by one comparison; an Option there is a case more.
    let place = Place(64);
    Stand { place, step, cost }
}

// Where corridor l leads a cart that stands as `at`, if that is on the way and the place is below the best so far; otherwise the best so far.
fn next_over(
    sheet: &HeldSheet,
    since: &[u16],
    table: &[u32],
    n: usize,
    at: Stand,
    l: usize,
    best: Stand,
) -> Stand
    requires { (Walkable sheet.now since.now n table.now (standing at)) × (l < length sheet.now.corridors)
        × (LowestOf sheet.now n table.now (standing at) l (standing best)) }
    ensures { LowestOf sheet.now n table.now (standing at) (l + 1) (standing result) }
{
    let from = end_of(sheet, l, 0);
    if from != at.place {
        return best;
    }
    let c = corridor_at(sheet, l, at.step);
    if !(c.open & (c.to < best.place)) {
        return best;
    }
    let place = c.to;
    let step = Step(at.step.0 + 1);
    let cost = sum(at.cost, c.cost);
    let next = Stand { place, step, cost };
    if is_marked(sheet, since, table, n, next) {
        return next;
    }
    best
}

// Where a cart that stands as `at` stands at the next step: the lowest place that is on the way.
fn next_stand(sheet: &HeldSheet, since: &[u16], table: &[u32], n: usize, at: Stand) -> Stand
    requires { Walkable sheet.now since.now n table.now (standing at) }
    ensures { LowestNext sheet.now n table.now (standing at) (standing result) }
{
    let count = sheet.count(C_LINE);
    let mut best = next_wait(sheet, since, table, n, at);
    for l in 0..count {
        best = next_over(sheet, since, table, n, at, l, best);
    }
    best
}

// Writes the places of the journey of the front cost `cost`, which arrives at step `arrival`, for each step from 0 on; what is past them is kept, and
// so is the table, which bears marks meanwhile. The time is that of the marks, and for each step the corridors and the time to find a row.
pub fn walk(
    sheet: &HeldSheet,
    since: &[u16],
    table: &mut [u32],
    n: usize,
    arrival: Step,
    cost: [u32; 3],
    path: &mut [u32],
)
    requires { Layable sheet.now since.now n table.old arrival.0 cost path.old }
    ensures { (table.new ≡ table.old)
        × (path.new ≡ sets path.old 0 (journey_of sheet.now cost)) }
{
    mark_ways(sheet, since, table, n, arrival, cost);
    let mut at = Stand {
        place: sheet.start(),
        step: Step(0),
        cost: [0; 3],
    };
    path[0] = at.place.0;
    for t in 0..arrival.0 as usize {
        at = next_stand(sheet, since, table, n, at);
        path[t + 1] = at.place.0;
    }
    clear_marks(table, n);
}
