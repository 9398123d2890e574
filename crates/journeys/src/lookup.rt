// Rows of the arrivals table, found by their order: they ascend by step, place, cost. While a journey is walked a row's place column holds a mark too
// (marks.rt); rows are read here without it.
ghost use Rattle.std.specs.Prelude.{◌≡◌, ◌+◌, ◌*◌, ◌≤◌, length};
ghost use Rattle.sheet.specs.Computed.{lexb};
ghost use Rattle.sheet.specs.Seek.{Parted};
ghost use Rattle.arrivals.specs.Arrivals.{key_of};
ghost use Rattle.journeys.specs.Inner.Lookup.{standing, stand_at, Sorted, RowIs, RowOr};

use arrivals::rows::row_cost;
use costs::before;
use sheet::seek::partition_point;
use sheet::{Place, Step};

// Where a cart stands: a place, a step and the cost so far. A row of the table tells one.
#[derive(Clone, Copy)]
pub struct Stand {
    pub place: Place,
    pub step: Step,
    pub cost: [u32; 3],
}

// Row k.
pub fn row_at(table: &[u32], k: usize) -> Stand
    requires { k * 5 + 5 ≤ length table.now }
    ensures { standing result ≡ stand_at table.now k }
{
    Stand {
        place: Place(table[k * 5] % 64),
        step: Step(table[k * 5 + 1]),
        cost: row_cost(table, k),
    }
}

// Whether a comes before b in the order of rows.
fn comes_before(a: Stand, b: Stand) -> bool
    ensures { result ≡ lexb (key_of (standing a)) (key_of (standing b)) }
{
    // Stays: the order of tuples would have both costs copied out first, so that it is no shorter.
    if a.step != b.step {
        return a.step < b.step;
    }
    if a.place != b.place {
        return a.place < b.place;
    }
    before(a.cost, b.cost)
}

// How many of the first n rows come before a.
fn rows_before(table: &[u32], n: usize, a: Stand) -> usize
    requires { Sorted n table.now }
    ensures { Parted n (λ k. key_of (stand_at table.now k)) (key_of (standing a)) result result }
{
    partition_point(n, |k| comes_before(row_at(table, k), a))
}

// The number of the row that is a, of the first n. The time grows with the logarithm of n.
pub fn row_of(table: &[u32], n: usize, a: Stand) -> Option<usize>
    requires { Sorted n table.now }
    ensures { RowOr n (RowIs n table.now (standing a)) result }
{
    let k = rows_before(table, n, a);
    if n <= k {
        return None;
    }
    if comes_before(a, row_at(table, k)) {
        return None;
    }
    Some(k)
}
