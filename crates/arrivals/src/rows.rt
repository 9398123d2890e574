// Rows of the lent table: five numbers each, place, step and the three figures.
ghost use Rattle.std.specs.Prelude.{◌≡◌, ◌++◌, ◌+◌, ◌*◌, ◌-◌, ◌≤◌, length, take, replicate};
ghost use Rattle.arrivals.specs.Rows.{cost_at, row_at, FiguresPut, Put};

use costs::cost_from;
use sheet::{Place, Step};

// The cost in row k.
pub fn row_cost(table: &[u32], k: usize) -> [u32; 3]
    requires { k * 5 + 5 ≤ length table.now }
    ensures { result ≡ cost_at table.now k }
{
    cost_from(table, k * 5 + 2)
}

// Three figures are stored from a number on.
pub fn put_figures(s: &mut [u32], at: usize, c: [u32; 3])
    requires { at + 3 ≤ length s.old }
    ensures { FiguresPut at c s.old s.new }
{
    s[at..at + 3].copy_from_slice(&c);
}

// Row n becomes the given row; the rows below it are kept.
pub fn push_row(table: &mut [u32], n: usize, place: Place, step: Step, cost: [u32; 3])
    requires { n * 5 + 5 ≤ length table.old }
    ensures { Put table.old table.new n (record { place = place.0; step = step.0; cost = cost }) }
{
    table[n * 5] = place.0;
    table[n * 5 + 1] = step.0;
    put_figures(table, n * 5 + 2, cost);
}

// Row k becomes what row from is; all else is kept.
pub fn move_row(table: &mut [u32], from: usize, k: usize)
    requires { (from * 5 + 5 ≤ length table.old) × (k * 5 + 5 ≤ length table.old) }
    ensures { Put table.old table.new k (row_at table.old from) }
{
    // Stays: by copy_within the search runs 5 to 8 % more instructions, since put_in is no longer inlined.
    let place = Place(table[from * 5]);
    let step = Step(table[from * 5 + 1]);
    let cost = row_cost(table, from);
    push_row(table, k, place, step, cost);
}

// Zeros all through.
pub fn clear(s: &mut [u32])
    ensures { s.new ≡ replicate (length s.old) 0 }
{
    s.fill(0);
}

// Zeros from a number on.
pub fn clear_from(table: &mut [u32], from: usize)
    requires { from ≤ length table.old }
    ensures { table.new ≡ take from table.old ++ replicate (length table.old - from) 0 }
{
    table[from..].fill(0);
}
