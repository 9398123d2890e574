// Rows that a later row of their place undercuts: they stay in the table, and the index leaves them out where they stand at an end of their group, so that
// they are sought and offered no more (document 02, E8: where waiting is dearer at the next place, a row is offered at each step).
ghost use Rattle.std.specs.Prelude.{◌≡◌, true, ◌+◌, ◌*◌, ◌<◌, ◌≤◌, length};
ghost use Rattle.costs.specs.Priced.{Within};
ghost use Rattle.arrivals.specs.Rows.{row_at};
ghost use Rattle.arrivals.specs.Inner.Network.{places_of};
ghost use Rattle.arrivals.specs.Inner.Lent.{Given};
ghost use Rattle.arrivals.specs.Inner.Settling.{Undercut, Spans, FirstLive, LastLive, Shortening, Shortened, Settles, Settleable};

use crate::index::{Span, group, newest, older, regroup};
use crate::network::{places_of, wait_of};
use crate::offers::beaten;
use crate::rows::row_cost;
use costs::{multiple, sum};
use intervals::first_step;
use sheet::{Place, Step};

// Is one of the rows of a span nowhere above row k after waiting at cost lag?
pub fn is_undercut(table: &[u32], k: usize, lag: [u32; 3], by: Span) -> bool
    requires { (k * 5 + 5 ≤ length table.now) × (Within 1000000000 (row_at table.now k).cost) × (Within 1000000000 lag)
        × (by.lo ≤ by.hi) × (by.hi * 5 ≤ length table.now) }
    ensures { result ≡ true → Undercut table.now lag by k }
{
    beaten(table, by.lo, by.hi - by.lo, sum(row_cost(table, k), lag))
}

// The first row of a span that is not undercut, or its end.
pub fn first_live(table: &[u32], span: Span, lag: [u32; 3], by: Span) -> usize
    requires { Spans table.now span lag by }
    ensures { FirstLive table.now span lag by result }
{
    for k in span.lo..span.hi {
        if !is_undercut(table, k, lag, by) {
            return k;
        }
    }
    span.hi
}

// One more than the last row of a span that is not undercut, or its beginning.
pub fn last_live(table: &[u32], span: Span, lag: [u32; 3], by: Span) -> usize
    requires { Spans table.now span lag by }
    ensures { LastLive table.now span lag by result }
{
    for i in (span.lo..span.hi).rev() {
        if !is_undercut(table, i, lag, by) {
            return i + 1;
        }
    }
    span.lo
}

// Leaves out of the group of place v and step s the rows at its ends that a row of step t undercuts, where waiting costs `wait`; whether any is left. The
// rows of v before it begin below step `back`.
pub fn shorten(
    table: &[u32],
    ix: &mut [u32],
    v: Place,
    s: Step,
    t: Step,
    wait: [u32; 3],
    back: Step,
) -> bool
    requires { Shortening table.now ix.old v.0 s.0 t.0 wait back.0 }
    ensures { Shortened table.now v.0 s.0 t.0 wait back.0 ix.old ix.new result }
{
    let by = group(ix, v, t);
    let span = group(ix, v, s);
    let lag = multiple(t.0 - s.0, wait);
    let lo = first_live(table, span, lag, by);
    let rest = Span { lo, hi: span.hi };
    let hi = last_live(table, rest, lag, by);
    regroup(ix, Span { lo, hi }, v, s, back);
    lo < hi
}

// Leaves the rows of place v out of the index that a row of step t undercuts, in its safe interval, if v has rows of step t. `p` is the step of the last
// group that has rows left, and the rows of v before it begin below step `s`.
pub fn settle_place(table: &[u32], ix: &mut [u32], net: &[u32], runs: &[u16], v: Place, t: Step)
    requires { (Given runs.now net.now) × (Settleable net.now table.now ix.old t.0) × (v.0 < places_of net.now) }
    ensures { Settles net.now table.now t.0 ix.old ix.new }
{
    let last = newest(ix, v);
    if last.0 != t.0 + 1 {
        return;
    }
    let wait = wait_of(net, v);
    let since = first_step(runs, v, t);
    let mut p = t;
    let mut s = older(ix, v, t);
    // Stays: s jumps to where `older` says, no `for` counts it.
    while since < s {
        let g = Step(s.0 - 1);
        let back = older(ix, v, g);
        if shorten(table, ix, v, g, t, wait, back) {
            p = g;
        } else {
            let span = group(ix, v, p);
            regroup(ix, span, v, p, back);
        }
        s = back;
    }
}

// The same for every place, where waiting is dearer somewhere and the index is kept.
pub fn settle(table: &[u32], ix: &mut [u32], net: &[u32], runs: &[u16], t: Step, dear: bool)
    requires { (Given runs.now net.now) × (length table.now ≤ 41943039 → Settleable net.now table.now ix.old t.0) }
    ensures { length table.now ≤ 41943039 → Settles net.now table.now t.0 ix.old ix.new }
{
    if !dear | (41943039 < table.len()) {
        return;
    }
    for v in 0..places_of(net) {
        settle_place(table, ix, net, runs, Place(v), t);
    }
}
