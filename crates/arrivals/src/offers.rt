// Costs are offered to the rows of one place and step, which stand last in the table, in order.
ghost use Rattle.std.specs.Prelude.{◌≡◌, ◌+◌, ◌*◌, ◌-◌, ◌<◌, ◌≤◌, length};
ghost use Rattle.sheet.specs.Lists.{Lex};
ghost use Rattle.sheet.specs.Laws.Decided.{Decided, Any};
ghost use Rattle.costs.specs.Costs.{add, AtMost};
ghost use Rattle.arrivals.specs.Rows.{row_at};
ghost use Rattle.arrivals.specs.Inner.Rows.{rows_of, tail_of};
ghost use Rattle.arrivals.specs.Inner.Entering.{LedAt, Ready};
ghost use Rattle.arrivals.specs.Inner.Offering.{Beaten, Thinned, ThinnedAll, Placed, Inserted, Sorted};
ghost use Rattle.arrivals.specs.Inner.Index.{Indexed, Covers};
ghost use Rattle.arrivals.specs.Inner.Outcomes.{offered};
ghost use Rattle.arrivals.specs.Inner.Sweeps.{SweptAt, Sweepable};

use crate::index::{group, newest, older};
use crate::network::Here;
use crate::rows::{move_row, push_row, row_cost};
use costs::{at_most, before, less, multiple};
use sheet::Step;

// Given up for want of room.
#[derive(Clone, Copy)]
pub struct Full;

// Given up for want of room, after so many rows.
#[derive(Clone, Copy)]
pub struct FullAt {
    pub rows: usize,
}

// Is one of the d costs from row a on nowhere above g?
pub fn beaten(table: &[u32], a: usize, d: usize, g: [u32; 3]) -> bool
    requires { (a + d) * 5 ≤ length table.now }
    ensures { Decided (Beaten (tail_of table.now a d) g) result }
{
    for i in 0..d {
        if at_most(row_cost(table, a + i), g) {
            return true;
        }
    }
    false
}

// Keeps row a + i as the next of the k rows kept from row a on, unless g is nowhere above it.
pub fn thin_row(table: &mut [u32], a: usize, i: usize, k: usize, g: [u32; 3]) -> usize
    requires { ((a + i) * 5 + 5 ≤ length table.old) × (k ≤ i) }
    ensures { Thinned g a i k table.old table.new result }
{
    if at_most(g, row_cost(table, a + i)) {
        return k;
    }
    if k == i {
        return k + 1;
    }
    move_row(table, a + i, a + k);
    k + 1
}

// Drops from the d rows from row a on those that g is nowhere above.
pub fn thin(table: &mut [u32], a: usize, d: usize, g: [u32; 3]) -> usize
    requires { (a + d) * 5 ≤ length table.old }
    ensures { ThinnedAll g a d table.old table.new result }
{
    let mut k = 0;
    for i in 0..d {
        k = thin_row(table, a, i, k, g);
    }
    k
}

// Does g come before the last of the k rows from row a on?
pub fn precedes(table: &[u32], a: usize, k: usize, g: [u32; 3]) -> bool
    requires { (a + k) * 5 ≤ length table.now }
    ensures { Decided ((0 < k) × Lex g (row_at table.now (a + k - 1)).cost) result }
{
    if k == 0 {
        return false;
    }
    before(g, row_cost(table, a + k - 1))
}

// How many of the d rows from row a on, which stand in order, do not come after g: searched from the end, since what one source brings ascends.
pub fn place_of(table: &[u32], a: usize, d: usize, g: [u32; 3]) -> usize
    requires { (a + d) * 5 ≤ length table.now }
    ensures { Placed g a d table.now result }
{
    let mut k = d;
    // Stays: `for k in (0..d).rev()` took 10 instructions a row in place of 7, and every offer goes by here.
    while precedes(table, a, k, g) {
        k -= 1;
    }
    k
}

// Puts a row in ahead of the d rows from row a on.
pub fn insert(table: &mut [u32], a: usize, d: usize, here: Here, g: [u32; 3])
    requires { (a + d) * 5 + 5 ≤ length table.old }
    ensures { Inserted (record { place = here.place.0; step = here.step.0; cost = g }) a d table.old table.new }
{
    let mut k = d;
    // Stays: `for k in (0..d).rev()` moved each row by way of the stack, 13 instructions in place of 6.
    while 0 < k {
        move_row(table, a + k - 1, a + k);
        k -= 1;
    }
    push_row(table, a, here.place, here.step, g);
}

// Does a row from lo to hi, after waiting at cost lag, lead g?
pub fn led_group(table: &[u32], lo: usize, hi: usize, lag: [u32; 3], g: [u32; 3]) -> bool
    requires { (lo ≤ hi) × (hi * 5 ≤ length table.now) }
    ensures { Decided (Any (λ q. AtMost (add q.cost lag) g) (tail_of table.now lo (hi - lo))) result }
{
    if at_most(lag, g) {
        return beaten(table, lo, hi - lo, less(g, lag));
    }
    false
}

// Does a row below n lead the cost g here?
pub fn led_walk(table: &[u32], n: usize, ix: &[u32], here: Here, g: [u32; 3]) -> bool
    requires { (Ready table.now n here) × (Indexed table.now n ix.now here.step.0)
        × (Covers table.now n ix.now here.step.0 here.place.0 here.wait) }
    ensures { Decided (LedAt (rows_of table.now n) here g) result }
{
    let mut s = newest(ix, here.place).0;
    // Stays: the step jumps to where `older` says, no `for` counts it.
    while here.since.0 < s {
        s -= 1;
        let rows = group(ix, here.place, Step(s));
        let late = here.step.0 - s;
        if led_group(table, rows.lo, rows.hi, multiple(late, here.wait), g) {
            return true;
        }
        s = older(ix, here.place, Step(s)).0;
    }
    false
}

// Puts the cost g, which no older row leads, among the d rows from row a on, which stand in order, unless one of them leads it: only those before its place
// can be nowhere above g, and only those from there on can be what g is nowhere above. Given up where there is no room for it, be it a row or not.
pub fn put_in(table: &mut [u32], a: usize, d: usize, here: Here, g: [u32; 3]) -> Result<usize, Full>
    requires { ((a + d) * 5 ≤ length table.old) × (Sorted (tail_of table.old a d)) × (LedAt (rows_of table.old a) here g → ⊥) }
    ensures { SweptAt (λ h. h ≡ g) here a table.old table.new d (offered result).ok (offered result).rows }
{
    let p = place_of(table, a, d, g);
    if beaten(table, a, p, g) {
        return Ok(d);
    }
    let k = thin(table, a + p, d - p, g);
    if table.len() / 5 <= a + p + k {
        return Err(Full);
    }
    insert(table, a + p, k, here, g);
    Ok(p + k + 1)
}

// Offers the cost g to the d rows from row a on, which stand in order.
pub fn offer(
    table: &mut [u32],
    a: usize,
    d: usize,
    ix: &[u32],
    here: Here,
    g: [u32; 3],
) -> Result<usize, Full>
    requires { Sweepable table.old a d ix.now here }
    ensures { SweptAt (λ h. h ≡ g) here a table.old table.new d (offered result).ok (offered result).rows }
{
    if led_walk(table, a, ix, here, g) {
        return Ok(d);
    }
    put_in(table, a, d, here, g)
}
