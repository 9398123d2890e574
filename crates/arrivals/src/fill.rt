// All rows, place by place and step by step.
ghost use Rattle.std.specs.Prelude.{◌≡◌, IsOkUnless, true, false, ℕ, ◌+◌, ◌*◌, ◌-◌, ◌≤◌, ◌<◌, length, replicate};
ghost use Rattle.arrivals.specs.Inner.Network.{places_of, case_of, Vacant};
ghost use Rattle.arrivals.specs.Rows.{row_at};
ghost use Rattle.arrivals.specs.Inner.Lent.{Given};
ghost use Rattle.arrivals.specs.Inner.Filling.{Visiting, Visited, Grown, Result};
ghost use Rattle.arrivals.specs.Inner.Index.{Indexed, room_of};
ghost use Rattle.arrivals.specs.Inner.Due.{Covered, IndexedShort, Stepping, Fast, Watching, Searchable, Onward, SteppedOn};
ghost use Rattle.arrivals.specs.Inner.Walking.{Walking, NextPlace};
ghost use Rattle.arrivals.specs.Inner.Lists.{Halted, Resumable};
ghost use Rattle.arrivals.specs.Inner.Renoting.{Noteable};
ghost use Rattle.arrivals.specs.Inner.Outcomes.{stored, stepped_to, served};
ghost use Rattle.arrivals.specs.Inner.Ending.{Ends};

use crate::by_lists::{Halt, search_lists};
use crate::expand::from_links;
use crate::index::{INDEX, MIDDLE, SHORT, Span, note, note_step};
use crate::live::settle;
use crate::network::{Here, places_of, start_of, wait_of};
use crate::offers::FullAt;
use crate::rows::{clear, clear_from, push_row};
use crate::select::fill_place;
use crate::watch::{is_somewhere_dear, led_on, step_set};
use intervals::first_step;
use intervals::sets::next_in;
use sheet::refusal::Refusal;
use sheet::{Place, Step};

// Fills in place v at step t: every offer is judged once; where the room runs out on the way, as fill_place does.
pub fn fill_fast(
    table: &mut [u32],
    rows: usize,
    ix: &[u32],
    net: &[u32],
    runs: &[u16],
    v: Place,
    t: Step,
) -> Result<usize, FullAt>
    requires { Fast runs.now net.now table.old ix.now rows v.0 t.0 }
    ensures { Visited (case_of runs.now net.now) table.old table.new rows v.0 t.0 (stored result) }
{
    let here = Here {
        place: v,
        step: t,
        since: first_step(runs, v, t),
        wait: wait_of(net, v),
    };
    if let Ok(d) = from_links(table, rows, ix, net, runs, here) {
        return Ok(rows + d);
    }
    fill_place(table, rows, net, runs, here)
}

// Fills in place v at step t without the index.
pub fn fill_slow(
    table: &mut [u32],
    n: usize,
    net: &[u32],
    runs: &[u16],
    v: Place,
    t: Step,
) -> Result<usize, FullAt>
    requires { (Visiting runs.now net.now table.old n v.0 t.0) × (Vacant (case_of runs.now net.now) v.0 t.0) }
    ensures { Visited (case_of runs.now net.now) table.old table.new n v.0 t.0 (stored result) }
{
    let here = Here {
        place: v,
        step: t,
        since: first_step(runs, v, t),
        wait: wait_of(net, v),
    };
    fill_place(table, n, net, runs, here)
}

// The first place from v on that is looked at at step t and free then.
pub fn next_place(set: u64, net: &[u32], runs: &[u16], v: u32, t: Step) -> Option<Place>
    requires { (Given runs.now net.now) × (t.0 ≤ 255) }
    ensures { NextPlace runs.now net.now set v t.0 result }
{
    let places = places_of(net);
    let mut u = v;
    // Stays: the place jumps to where the set says, no `for` counts it.
    while u < places {
        let w = next_in(set, u);
        if places <= w {
            return None;
        }
        let since = first_step(runs, Place(w), t);
        if since <= t {
            return Some(Place(w));
        }
        u = w + 1;
    }
    None
}

// Fills in place v at step t, which is free.
pub fn visit(
    table: &mut [u32],
    n: usize,
    ix: &mut [u32],
    net: &[u32],
    runs: &[u16],
    v: Place,
    t: Step,
) -> Result<usize, FullAt>
    requires { (Walking runs.now net.now table.old n v.0 t.0) × (v.0 < places_of net.now)
        × (Vacant (case_of runs.now net.now) v.0 t.0) × (IndexedShort table.old n ix.old t.0 t.0 net.now) }
    ensures { (Stepping runs.now net.now table.new ix.new t.0 t.0 (v.0 + 1) (stored result))
        × (Grown table.old table.new n (stored result).rows v.0 t.0) }
{
    if 41943039 < table.len() {
        return fill_slow(table, n, net, runs, v, t);
    }
    let rows = fill_fast(table, n, ix, net, runs, v, t)?;
    if n < rows {
        note(ix, Span { lo: n, hi: rows }, v, t);
    }
    Ok(rows)
}

// The rows after a step, and the places that corridors lead to from those of the step.
#[derive(Clone, Copy)]
pub struct Stepped {
    pub rows: usize,
    pub next: u64,
}

// Fills in step t, where corridors lead to `next` from the rows of the step before.
pub fn fill_step(
    table: &mut [u32],
    rows: usize,
    ix: &mut [u32],
    sets: &[u64],
    net: &[u32],
    runs: &[u16],
    t: Step,
    next: u64,
) -> Result<Stepped, FullAt>
    requires { (Visiting runs.now net.now table.old rows 0 t.0) × (IndexedShort table.old rows ix.old t.0 t.0 net.now)
        × (Watching runs.now net.now sets.now) × (Onward net.now table.old rows t.0 next) }
    ensures { SteppedOn runs.now net.now table.new ix.new t.0 (stepped_to result) }
{
    let set = step_set(sets, next, t);
    let mut n = rows;
    let mut onward = 0u64;
    let mut at = next_place(set, net, runs, 0, t);
    while let Some(v) = at {
        let m = visit(table, n, ix, net, runs, v, t)?;
        onward = led_on(sets, onward, v, n, m);
        n = m;
        at = next_place(set, net, runs, v.0 + 1, t);
    }
    settle(table, ix, net, runs, t, is_somewhere_dear(sets));
    Ok(Stepped {
        rows: n,
        next: onward,
    })
}

// Fills in every step from a step on to the last. At the first of them every place is looked at.
pub fn fill_steps(
    table: &mut [u32],
    rows: usize,
    ix: &mut [u32],
    sets: &[u64],
    net: &[u32],
    runs: &[u16],
    last: Step,
    from: Step,
) -> Result<usize, FullAt>
    requires { (Visiting runs.now net.now table.old rows 0 from.0) × (IndexedShort table.old rows ix.old (from.0 - 1) from.0 net.now)
        × (last.0 ≤ 255) × (from.0 ≤ last.0 + 1)
        × (Watching runs.now net.now sets.now) × (room_of last.0 ≤ length ix.old) }
    ensures { Result (case_of runs.now net.now) table.new (last.0 + 1) 0 (stored result).ok (stored result).rows }
{
    let mut n = rows;
    let mut next = u64::MAX;
    for t in from.0..last.0 + 1 {
        let r = fill_step(table, n, ix, sets, net, runs, Step(t), next)?;
        n = r.rows;
        next = r.next;
    }
    Ok(n)
}

// The row of the start, where that is free at step 0.
pub fn first_row(
    table: &mut [u32],
    ix: &mut [u32],
    net: &[u32],
    runs: &[u16],
) -> Result<usize, FullAt>
    requires { (Given runs.now net.now) × (Indexed table.old 0 ix.old 0) }
    ensures { Stepping runs.now net.now table.new ix.new 0 1 0 (stored result) }
{
    let start = start_of(net);
    let since = first_step(runs, start, Step(0));
    if 0 < since.0 {
        return Ok(0);
    }
    if table.len() < 5 {
        return Err(FullAt { rows: 0 });
    }
    push_row(table, 0, start, Step(0), [0; 3]);
    note(ix, Span { lo: 0, hi: 1 }, start, Step(0));
    Ok(1)
}

// All the rows of the search, or more of them than there is room for. Of what stands past the rows nothing is said.
pub fn search_anew(
    table: &mut [u32],
    ix: &mut [u32],
    sets: &[u64],
    net: &[u32],
    runs: &[u16],
    last: Step,
) -> Result<usize, FullAt>
    requires { (Searchable runs.now net.now sets.now last.0) × (Indexed table.old 0 ix.old 0) × (room_of last.0 ≤ length ix.old) }
    ensures { Result (case_of runs.now net.now) table.new (last.0 + 1) 0 (stored result).ok (stored result).rows }
{
    let rows = first_row(table, ix, net, runs)?;
    fill_steps(table, rows, ix, sets, net, runs, last, Step(1))
}

// Notes the rows below n, which stand in order, step by step, each step settled as in the search by the index (live.rt).
pub fn note_rows(
    table: &[u32],
    n: usize,
    ix: &mut [u32],
    net: &[u32],
    runs: &[u16],
    t: Step,
    dear: bool,
)
    requires { (Given runs.now net.now) × (Noteable table.now n) × (ix.old ≡ replicate (length ix.old) 0) × (room_of t.0 ≤ length ix.old)
        × (t.0 ≤ 255) × ((i : ℕ) → i < n → (row_at table.now i).step ≤ t.0) }
    ensures { (Indexed table.now n ix.new t.0)
        × (Covered net.now table.now n ix.new (t.0 + 1)) }
{
    let mut k = 0;
    // Stays: the row jumps past those of a step, no `for` counts it.
    while k < n {
        let s = Step(table[k * 5 + 1]);
        k = note_step(table, k, n, ix);
        settle(table, ix, net, runs, s, dear);
    }
}

// The same from where the search by lists gave up.
pub fn search_on(
    table: &mut [u32],
    ix: &mut [u32],
    sets: &[u64],
    net: &[u32],
    runs: &[u16],
    last: Step,
    halt: Halt,
) -> Result<usize, FullAt>
    requires { (Searchable runs.now net.now sets.now last.0) × (ix.old ≡ replicate (length ix.old) 0) × (room_of last.0 ≤ length ix.old)
        × (1 ≤ halt.step.0) × (Halted runs.now net.now table.old last.0 halt.rows halt.step.0) }
    ensures { Result (case_of runs.now net.now) table.new (last.0 + 1) 0 (stored result).ok (stored result).rows }
{
    if table.len() <= 41943039 {
        let done = Step(halt.step.0 - 1);
        let dear = is_somewhere_dear(sets);
        note_rows(table, halt.rows, ix, net, runs, done, dear);
    }
    fill_steps(table, halt.rows, ix, sets, net, runs, last, halt.step)
}

// The same from there, or from the beginning.
pub fn search_by(
    table: &mut [u32],
    ix: &mut [u32],
    sets: &[u64],
    net: &[u32],
    runs: &[u16],
    last: Step,
    halt: Option<Halt>,
) -> Result<usize, FullAt>
    requires { (Searchable runs.now net.now sets.now last.0) × (ix.old ≡ replicate (length ix.old) 0) × (room_of last.0 ≤ length ix.old)
        × (Resumable runs.now net.now table.old last.0 halt) }
    ensures { Result (case_of runs.now net.now) table.new (last.0 + 1) 0 (stored result).ok (stored result).rows }
{
    match halt {
        None => search_anew(table, ix, sets, net, runs, last),
        Some(from) => search_on(table, ix, sets, net, runs, last, from),
    }
}

// The same, with the shortest of three indexes that the steps fit in: clearing it takes most of the time where there are few. The three take one place on the
// stack.
pub fn search_indexed(
    table: &mut [u32],
    sets: &[u64],
    net: &[u32],
    runs: &[u16],
    last: Step,
    halt: Option<Halt>,
) -> Result<usize, FullAt>
    requires { (Searchable runs.now net.now sets.now last.0)
        × (Resumable runs.now net.now table.old last.0 halt) }
    ensures { Result (case_of runs.now net.now) table.new (last.0 + 1) 0 (stored result).ok (stored result).rows }
{
    // Stays: three lengths in one function and none by a const parameter, so that the three take one place on the stack.
    if last < Step(16) {
        let mut ix = [0; SHORT];
        return search_by(table, &mut ix, sets, net, runs, last, halt);
    }
    if last < Step(64) {
        let mut ix = [0; MIDDLE];
        return search_by(table, &mut ix, sets, net, runs, last, halt);
    }
    let mut ix = [0; INDEX];
    search_by(table, &mut ix, sets, net, runs, last, halt)
}

// The same by lists of live costs, and from the step on for which a list or the table has no room, by the index.
pub fn search_all(
    table: &mut [u32],
    sets: &[u64],
    net: &[u32],
    runs: &[u16],
    last: Step,
) -> Result<usize, FullAt>
    requires { Searchable runs.now net.now sets.now last.0 }
    ensures { Result (case_of runs.now net.now) table.new (last.0 + 1) 0 (stored result).ok (stored result).rows }
{
    match search_lists(table, sets, net, runs, last) {
        Ok(rows) => Ok(rows),
        Err(halt) => search_indexed(table, sets, net, runs, last, halt),
    }
}

// All the rows of the search, and zeros after them; or zeros alone where there is no room.
pub fn fill(
    table: &mut [u32],
    sets: &[u64],
    net: &[u32],
    runs: &[u16],
    last: Step,
) -> Result<usize, Refusal>
    requires { Searchable runs.now net.now sets.now last.0 }
    ensures ends { Ends (case_of runs.now net.now) last.0 (length table.old) table.new (served result) }
    ensures room { IsOkUnless result Refusal.RoomArrivals }
{
    let Ok(rows) = search_all(table, sets, net, runs, last) else {
        clear(table);
        return Err(Refusal::RoomArrivals);
    };
    clear_from(table, rows * 5);
    Ok(rows)
}
