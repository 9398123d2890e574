// Every cost at which a place can be entered at a step is offered, but for those that the pruning rule spares.
ghost use Rattle.std.specs.Prelude.{◌≡◌, ◌+◌, ◌*◌, ◌<◌, ◌≤◌, length};
ghost use Rattle.arrivals.specs.Rows.{row_at};
ghost use Rattle.arrivals.specs.Inner.Rows.{Bounded};
ghost use Rattle.arrivals.specs.Inner.Network.{case_of, link_of, link_at, count_of, dear_of};
ghost use Rattle.arrivals.specs.Inner.Lent.{Closing, Given};
ghost use Rattle.arrivals.specs.Inner.Entering.{reach};
ghost use Rattle.arrivals.specs.Inner.Pruning.{FreshIs, Sourced, Fair};
ghost use Rattle.arrivals.specs.Inner.Filling.{Reaching};
ghost use Rattle.arrivals.specs.Inner.Index.{Covers};
ghost use Rattle.arrivals.specs.Inner.Due.{Covered};
ghost use Rattle.arrivals.specs.Inner.Outcomes.{offered};
ghost use Rattle.arrivals.specs.Inner.Sweeps.{Startable, Sweepable, Before, OffersRows, OffersSource, OffersLink, OffersLinks};

use crate::index::{Span, group, latest, newest, older};
use crate::network::{
    Here, Source, is_dear, is_open, last_link, link_cost, link_end, next_link, wait_of,
};
use crate::offers::{Full, offer};
use crate::rows::row_cost;
use costs::{multiple, sum};
use intervals::first_step;
use sheet::Step;

// The first step whose rows are to be offered here over corridor j, by the pruning rule, where its departures from step `past` on are closed.
pub fn fresh_before(net: &[u32], j: usize, here: Here, past: Step) -> Step
    requires { (j < 256) × (link_of net.now 1 j < 64) × (Closing net.now) × (past.0 < here.step.0) × (dear_of net.now j ≡ 0) }
    ensures { FreshIs net.now j here result.0 }
{
    for a in (0..past.0).rev() {
        if a + 1 < here.since.0 {
            return Step(0);
        }
        if is_open(net, j, Step(a)) {
            return Step(a + 1);
        }
    }
    Step(0)
}

// The first step whose rows are to be offered here over corridor j, by the pruning rule: the one after the last open departure that arrives
// earlier in the same safe interval, where waiting is nowhere dearer. While the corridor is closed nothing is offered over it, so that a run of
// closures is gone through once, when it ends.
pub fn fresh(net: &[u32], j: usize, here: Here) -> Step
    requires { (j < 256) × (link_of net.now 1 j < 64) × (Closing net.now) × (1 ≤ here.step.0) }
    ensures { FreshIs net.now j here result.0 }
{
    if is_dear(net, j) {
        return Step(0);
    }
    let last = here.step.0 - 1;
    if (last == 0) | (last < here.since.0) {
        return Step(0);
    }
    if is_open(net, j, Step(last - 1)) {
        return Step(last);
    }
    if !is_open(net, j, Step(last)) {
        return Step(0);
    }
    fresh_before(net, j, here, Step(last - 1))
}

// Where corridor j comes from, for a departure before step t, with rows from step first on.
pub fn source_of(net: &[u32], runs: &[u16], j: usize, t: Step, first: Step) -> Source
    requires { (Given runs.now net.now) × (j < count_of net.now) × (1 ≤ t.0) × (t.0 ≤ 255) }
    ensures { Sourced (case_of runs.now net.now) (link_at net.now j) t.0 first.0 result }
{
    let place = link_end(net, j, 0);
    let since = first_step(runs, place, Step(t.0 - 1));
    Source {
        place,
        floor: first.max(since),
        wait: wait_of(net, link_end(net, j, 0)),
        cost: link_cost(net, j),
    }
}

// The cost at step t of waiting at row k of the source and then crossing.
pub fn reach_cost(table: &[u32], k: usize, t: Step, from: Source) -> [u32; 3]
    requires { (k * 5 + 5 ≤ length table.now) × (t.0 ≤ 255) × (Fair from) × (Bounded (row_at table.now k)) × ((row_at table.now k).step < t.0) }
    ensures { result ≡ reach t.0 from.wait from.cost (row_at table.now k) }
{
    let s = Step(table[k * 5 + 1]);
    let lag = multiple(t.0 - 1 - s.0, from.wait);
    sum(sum(row_cost(table, k), lag), from.cost)
}

// Offers what the rows of a span arrive with.
pub fn from_rows(
    table: &mut [u32],
    a: usize,
    d: usize,
    ix: &[u32],
    span: Span,
    from: Source,
    here: Here,
) -> Result<usize, Full>
    requires { (Sweepable table.old a d ix.now here) × (Fair from) × (Before table.old a span here.step.0) }
    ensures { OffersRows table.old table.new a d span from here (offered result) }
{
    let mut e = d;
    for i in span.lo..span.hi {
        let g = reach_cost(table, i, here.step, from);
        e = offer(table, a, e, ix, here, g)?;
    }
    Ok(e)
}

// Offers what the rows of the source from its floor on arrive with.
pub fn from_place(
    table: &mut [u32],
    a: usize,
    d: usize,
    ix: &[u32],
    from: Source,
    here: Here,
) -> Result<usize, Full>
    requires { (Sweepable table.old a d ix.now here) × (Fair from)
        × (Covers table.old a ix.now here.step.0 from.place.0 from.wait) }
    ensures { OffersSource table.old table.new a d from here (offered result) }
{
    let mut e = d;
    let mut s = latest(ix, from.place, here.step).0;
    // Stays: the step jumps to where `older` says, no `for` counts it.
    while from.floor.0 < s {
        s -= 1;
        e = from_rows(table, a, e, ix, group(ix, from.place, Step(s)), from, here)?;
        s = older(ix, from.place, Step(s)).0;
    }
    Ok(e)
}

// Offers what comes over corridor j.
pub fn from_link(
    table: &mut [u32],
    a: usize,
    d: usize,
    ix: &[u32],
    net: &[u32],
    runs: &[u16],
    j: usize,
    here: Here,
) -> Result<usize, Full>
    requires { (Reaching runs.now net.now table.old a here) × (Sweepable table.old a d ix.now here) × (j < count_of net.now)
        × (Covered net.now table.old a ix.now here.step.0) }
    ensures { OffersLink runs.now net.now j table.old table.new a d here (offered result) }
{
    if link_end(net, j, 1) != here.place {
        return Ok(d);
    }
    let first = fresh(net, j, here);
    if newest(ix, link_end(net, j, 0)) <= first {
        return Ok(d);
    }
    if !is_open(net, j, Step(here.step.0 - 1)) {
        return Ok(d);
    }
    from_place(
        table,
        a,
        d,
        ix,
        source_of(net, runs, j, here.step, first),
        here,
    )
}

// Offers what comes over every corridor.
pub fn from_links(
    table: &mut [u32],
    a: usize,
    ix: &[u32],
    net: &[u32],
    runs: &[u16],
    here: Here,
) -> Result<usize, Full>
    requires { (Reaching runs.now net.now table.old a here) × (Startable table.old a ix.now here)
        × (Covered net.now table.old a ix.now here.step.0) }
    ensures { OffersLinks runs.now net.now table.old table.new a here (offered result) }
{
    let mut e = 0;
    let mut j = last_link(net, 1, here.place);
    // Stays: the chain of the place says which corridor is next, no `for` counts it.
    while 0 < j {
        j -= 1;
        e = from_link(table, a, e, ix, net, runs, j, here)?;
        j = next_link(net, 1, j, here.place);
    }
    Ok(e)
}
