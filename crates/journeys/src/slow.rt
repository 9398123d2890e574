// The front where there are more than 4,294,967,295 leading arrivals: the number of a row does not fit into the place column then, so the rows are not
// chained but compared, every two of them, and nothing is written into the table.
ghost use Rattle.std.specs.Prelude.{◌≡◌, ◌+◌, ◌*◌, ◌≤◌, ◌<◌, length};
ghost use Rattle.sheet.specs.Lists.{filled};
ghost use Rattle.journeys.specs.Inner.{goal_rows, NumberIs, offered_rows};
ghost use Rattle.journeys.specs.Inner.Slow.{kept_off, is_front_row, count_to};
ghost use Rattle.journeys.specs.Inner.Sweep.{ListableFront};

use crate::front::{Offered, put_cost};
use crate::goal::is_goal_row;
use arrivals::rows::{clear_from, row_cost};
use costs::{at_most, before};
use sheet::{Place, Step};

// Whether row j keeps row k off the front.
fn is_kept_off(table: &[u32], v: Place, counting: &[u8], k: usize, j: usize) -> bool
    requires { (k * 5 + 5 ≤ length table.now) × (j * 5 + 5 ≤ length table.now) }
    ensures { result ≡ kept_off v.0 counting.now table.now k j }
{
    let g = row_cost(table, k);
    let h = row_cost(table, j);
    is_goal_row(table, j, v, counting) & at_most(h, g) & (before(h, g) | (j < k))
}

// Whether row k is one of the front's rows.
fn is_front_row(table: &[u32], n: usize, v: Place, counting: &[u8], k: usize) -> bool
    requires { (k < n) × (n * 5 ≤ length table.now) }
    ensures { result ≡ is_front_row v.0 counting.now n table.now k }
{
    // Stays: tried as `any`, of which the library says the run of a range's steps alone: `is_front_row` was no short proof from that.
    for j in 0..n {
        if is_kept_off(table, v, counting, k, j) {
            return false;
        }
    }
    is_goal_row(table, k, v, counting)
}

// How many of the front's rows have a cost before g, or how many there are.
pub fn count_rows(
    table: &[u32],
    n: usize,
    v: Place,
    counting: &[u8],
    every: bool,
    g: [u32; 3],
) -> usize
    requires { n * 5 ≤ length table.now }
    ensures { result ≡ count_to v.0 counting.now n table.now every g n }
{
    let mut count = 0usize;
    for k in 0..n {
        if is_front_row(table, n, v, counting, k) & (every | before(row_cost(table, k), g)) {
            count += 1;
        }
    }
    count
}

// The front cost with a number, from 0, with its arrival step: that of the row with so many of the front's rows before it.
pub fn nth_slow(
    table: &[u32],
    n: usize,
    v: Place,
    counting: &[u8],
    number: usize,
) -> Option<Offered>
    requires { n * 5 ≤ length table.now }
    ensures { NumberIs (goal_rows v.0 counting.now n table.now) number result }
{
    for k in 0..n {
        let cost = row_cost(table, k);
        let place = count_rows(table, n, v, counting, false, cost);
        if is_front_row(table, n, v, counting, k) & (place == number) {
            return Some(Offered {
                cost,
                step: Step(table[k * 5 + 1]),
            });
        }
    }
    None
}

// Writes the front list.
pub fn list_slow(table: &[u32], n: usize, v: Place, counting: &[u8], list: &mut [u32])
    requires { ListableFront v.0 counting.now n table.now list.old }
    ensures { list.new ≡ filled (length list.old) (offered_rows (goal_rows v.0 counting.now n table.now)) }
{
    let count = count_rows(table, n, v, counting, true, [0; 3]);
    for i in 0..count {
        let Some(o) = nth_slow(table, n, v, counting, i) else {
            unreachable!()
        };
        put_cost(list, i, o.cost, o.step);
    }
    clear_from(list, count * 4);
}
