// The rows of a place and step one after another, each by a scan of all rows: no cost is held that is not a row. This runs where the room ran out
// while costs were offered, since a cost that is held for a moment may not be a row, and, where the lists have no room,
// for tables whose rows 23 bits do not number.
ghost use Rattle.std.specs.Prelude.{◌≡◌, true, ◌+◌, ◌*◌, ◌<◌, ◌≤◌, length};
ghost use Rattle.sheet.specs.Lists.{Lex};
ghost use Rattle.sheet.specs.Laws.Decided.{Decided};
ghost use Rattle.costs.specs.Priced.{Within};
ghost use Rattle.arrivals.specs.Rows.{row_at};
ghost use Rattle.arrivals.specs.Inner.Rows.{rows_of, Bounded};
ghost use Rattle.arrivals.specs.Inner.Network.{case_of, link_at, count_of};
ghost use Rattle.arrivals.specs.Inner.Entering.{RowLeadsAt, LedAt, Ready, Stands};
ghost use Rattle.arrivals.specs.Inner.Pruning.{Fair};
ghost use Rattle.arrivals.specs.Inner.Filling.{Reaching, Visiting, VisitedAt};
ghost use Rattle.arrivals.specs.Inner.Outcomes.{stored};
ghost use Rattle.arrivals.specs.Inner.Selecting.{next_of, Improved, Least, Scanned, RowTried, RowsTried, LinkTried};

use crate::expand::{fresh, reach_cost, source_of};
use crate::network::{Here, Source, count_of, is_open, link_end};
use crate::offers::FullAt;
use crate::rows::{push_row, row_cost};
use costs::{at_most, before, multiple, sum};
use sheet::{Place, Step};

// Does row k lead the cost g here?
pub fn leads(table: &[u32], k: usize, here: Here, g: [u32; 3]) -> bool
    requires { (k * 5 + 5 ≤ length table.now) × (here.step.0 ≤ 255) × (Within 60000 here.wait) × (Bounded (row_at table.now k)) }
    ensures { Decided (RowLeadsAt here g (row_at table.now k)) result }
{
    if Place(table[k * 5]) != here.place {
        return false;
    }
    let s = Step(table[k * 5 + 1]);
    if s < here.since {
        return false;
    }
    if here.step < s {
        return false;
    }
    let lag = multiple(here.step.0 - s.0, here.wait);
    at_most(sum(row_cost(table, k), lag), g)
}

// Does a row below n lead the cost g here?
pub fn led(table: &[u32], n: usize, here: Here, g: [u32; 3]) -> bool
    requires { Ready table.now n here }
    ensures { Decided (LedAt (rows_of table.now n) here g) result }
{
    for k in (0..n).rev() {
        if leads(table, k, here, g) {
            return true;
        }
    }
    false
}

// Does the cost g come before what is found so far?
pub fn better(best: Option<[u32; 3]>, g: [u32; 3]) -> bool
    ensures { Decided ((next_of best).found ≡ true → Lex g (next_of best).cost) result }
{
    match best {
        Some(c) => before(g, c),
        None => true,
    }
}

// The better of best and the cost of crossing from row k of the source, where no row leads that.
pub fn try_row(
    table: &[u32],
    n: usize,
    k: usize,
    from: Source,
    here: Here,
    best: Option<[u32; 3]>,
) -> Option<[u32; 3]>
    requires { (Ready table.now n here) × (Fair from) × (k < n) }
    ensures { Improved (RowTried table.now n k from here) (next_of best) (next_of result) }
{
    if Place(table[k * 5]) != from.place {
        return best;
    }
    let s = Step(table[k * 5 + 1]);
    if s < from.floor {
        return best;
    }
    if here.step <= s {
        return best;
    }
    let g = reach_cost(table, k, here.step, from);
    if better(best, g) {
        if led(table, n, here, g) {
            return best;
        }
        return Some(g);
    }
    best
}

// The best of best and the costs of crossing from any row of the source below n. Most rows are of another place: in a function of its own the loop keeps what
// it asks of each in registers.
#[inline(never)]
pub fn scan_rows(
    table: &[u32],
    n: usize,
    from: Source,
    here: Here,
    best: Option<[u32; 3]>,
) -> Option<[u32; 3]>
    requires { (Ready table.now n here) × (Fair from) }
    ensures { Improved (RowsTried table.now n from here) (next_of best) (next_of result) }
{
    let mut b = best;
    for k in 0..n {
        b = try_row(table, n, k, from, here, b);
    }
    b
}

// The better of best and the costs over corridor j.
pub fn try_link(
    table: &[u32],
    n: usize,
    net: &[u32],
    runs: &[u16],
    j: usize,
    here: Here,
    best: Option<[u32; 3]>,
) -> Option<[u32; 3]>
    requires { (Reaching runs.now net.now table.now n here) × (j < count_of net.now) }
    ensures { Improved (LinkTried (case_of runs.now net.now) (link_at net.now j) table.now n here) (next_of best) (next_of result) }
{
    if link_end(net, j, 1) != here.place {
        return best;
    }
    if !is_open(net, j, Step(here.step.0 - 1)) {
        return best;
    }
    let first = fresh(net, j, here);
    scan_rows(
        table,
        n,
        source_of(net, runs, j, here.step, first),
        here,
        best,
    )
}

// The least cost of entering here that no row leads.
pub fn next_label(
    table: &[u32],
    n: usize,
    net: &[u32],
    runs: &[u16],
    here: Here,
) -> Option<[u32; 3]>
    requires { Reaching runs.now net.now table.now n here }
    ensures { Least (Scanned (case_of runs.now net.now) (rows_of table.now n) here) (next_of result) }
{
    let mut b = None;
    for j in 0..count_of(net) {
        b = try_link(table, n, net, runs, j, here, b);
    }
    b
}

// Fills in place and step of here.
pub fn fill_place(
    table: &mut [u32],
    rows: usize,
    net: &[u32],
    runs: &[u16],
    here: Here,
) -> Result<usize, FullAt>
    requires { (Visiting runs.now net.now table.old rows here.place.0 here.step.0) × (Stands (case_of runs.now net.now) here) }
    ensures { VisitedAt runs.now net.now table.old table.new rows here (stored result) }
{
    let mut n = rows;
    while let Some(cost) = next_label(table, n, net, runs, here) {
        if table.len() / 5 <= n {
            return Err(FullAt { rows: n });
        }
        push_row(table, n, here.place, here.step, cost);
        n += 1;
    }
    Ok(n)
}
