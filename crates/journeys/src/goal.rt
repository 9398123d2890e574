// The goal's rows of the arrivals table, chained in the order of their costs, and of equal costs the earlier row first. Rows of one step ascend by
// cost already, so most rows come directly after the row before them. A row is left out if a row of the chain that is met on the way to its gap is
// nowhere above it: such a row is not on the front, so that the chain is little longer than the front.
ghost use Rattle.std.specs.Prelude.{◌≡◌, ◌+◌, ◌*◌, ◌≤◌, ◌<◌, length};
ghost use Rattle.arrivals.specs.Rows.{row_at};
ghost use Rattle.journeys.specs.Inner.{is_goal_row};
ghost use Rattle.journeys.specs.Inner.Chain.{Seekable, SoughtFrom, Sought, Orderable, OrderedIn, OrderedAll};

use crate::chain::{Gap, Spot, link_in, next_gap, start};
use crate::counting::counts_at;
use arrivals::rows::row_cost;
use costs::{at_most, before};
use sheet::{Place, Step};

// Whether row k is an arrival at place v that counts.
pub fn is_goal_row(table: &[u32], k: usize, v: Place, counting: &[u8]) -> bool
    requires { k * 5 + 5 ≤ length table.now }
    ensures { result ≡ is_goal_row v.0 counting.now (row_at table.now k) }
{
    table[k * 5] == v.0 && counts_at(counting, Step(table[k * 5 + 1]))
}

// Where to look for the cost g from on: at the gap, or at the chain's start if g comes before the row before the gap.
fn seek_from(table: &[u32], gap: Gap, g: [u32; 3]) -> Gap
    requires { Seekable table.now gap }
    ensures { SoughtFrom table.now gap g result }
{
    if gap.rest == gap.rows {
        return gap;
    }
    let left = row_cost(table, gap.left as usize);
    if before(g, left) {
        return start(gap.first, gap.rows);
    }
    gap
}

// The gap before the first row of the chain that the cost g comes before, unless a row on the way there is nowhere above g.
fn seek(table: &[u32], from: Gap, g: [u32; 3]) -> Spot
    requires { Seekable table.now from }
    ensures { Sought table.now from g result }
{
    let mut gap = seek_from(table, from, g);
    // Stays: the loop goes from row to row as the chain says, and no `for` counts that.
    while 0 < gap.rest {
        let h = row_cost(table, gap.right as usize);
        if before(g, h) {
            return Spot { led: false, gap };
        }
        if at_most(h, g) {
            return Spot { led: true, gap };
        }
        gap = next_gap(table, gap);
    }
    Spot { led: false, gap }
}

// Puts row k into the chain of the goal's rows before it, unless one of them is found that is nowhere above it.
fn order_row(table: &mut [u32], k: usize, gap: Gap) -> Gap
    requires { Orderable k table.old gap }
    ensures { OrderedIn k table.old table.new gap result }
{
    let s = seek(table, gap, row_cost(table, k));
    if s.led {
        return s.gap;
    }
    link_in(table, s.gap, k as u32)
}

// Chains the arrivals at place v that count, of the first n rows, but those left out; the chain's first row and its count of rows are handed back.
pub fn order_rows(table: &mut [u32], n: usize, v: Place, counting: &[u8]) -> Gap
    requires { (n ≤ 4294967295) × (n * 5 ≤ length table.old) }
    ensures { OrderedAll v.0 counting.now n table.old table.new result }
{
    let mut at = start(0, 0);
    for k in 0..n {
        if is_goal_row(table, k, v, counting) {
            at = order_row(table, k, at);
        }
    }
    at
}
