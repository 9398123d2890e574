// Chains of rows of the arrivals table. While a call looks at the goal's rows, their place column, which would hold nothing but the goal, holds the
// number of the next row of a chain; the last row's holds any number.
ghost use Rattle.std.specs.Prelude.{◌≡◌, ◌+◌, ◌*◌, ◌≤◌, ◌<◌, length, set};
ghost use Rattle.journeys.specs.Inner.Chain.{start_of, next_of, less_of, link_in, in_gap, Linkable, Releasable, Released};

use arrivals::rows::row_cost;
use sheet::Place;

// A gap in a chain: the chain's first row and the count of its rows; the last row before the gap; the count of rows after it and the first of them.
#[derive(Drop)]
pub struct Gap {
    pub first: u32,
    pub rows: usize,
    pub left: u32,
    pub rest: usize,
    pub right: u32,
}

// Whether a row of a chain is nowhere above another row, and the gap where the search for one ended: if there is none, the gap where the other belongs.
// Stays: a row that is led hands the gap on as one that is not (`order_row`), so that an enum would hold the gap in both variants.
#[derive(Drop)]
pub struct Spot {
    pub led: bool,
    pub gap: Gap,
}

// The gap before a chain.
pub fn start(first: u32, rows: usize) -> Gap
    ensures { result ≡ start_of first rows }
{
    Gap {
        first,
        rows,
        left: 0,
        rest: rows,
        right: first,
    }
}

// The gap one row further on.
pub fn next_gap(table: &[u32], gap: Gap) -> Gap
    requires { (0 < gap.rest) × (gap.right * 5 + 5 ≤ length table.now) }
    ensures { result ≡ next_of table.now gap }
{
    Gap {
        first: gap.first,
        rows: gap.rows,
        left: gap.right,
        rest: gap.rest - 1,
        right: table[gap.right as usize * 5],
    }
}

// Puts row k into the gap; the gap is then the one after it.
pub fn link_in(table: &mut [u32], gap: Gap, k: u32) -> Gap
    requires { Linkable table.old gap k }
    ensures { (table.new ≡ link_in table.old gap k) × (result ≡ in_gap gap k) }
{
    table[k as usize * 5] = gap.right;
    if gap.rest == gap.rows {
        return Gap {
            first: k,
            rows: gap.rows + 1,
            left: k,
            rest: gap.rest,
            right: gap.right,
        };
    }
    table[gap.left as usize * 5] = k;
    Gap {
        first: gap.first,
        rows: gap.rows + 1,
        left: k,
        rest: gap.rest,
        right: gap.right,
    }
}

// Takes the row after the gap out of the chain and puts v back into its place column.
fn release_row(table: &mut [u32], v: Place, gap: Gap) -> Gap
    requires { (0 < gap.rest) × (gap.rest ≤ gap.rows) × (gap.right * 5 + 5 ≤ length table.old) }
    ensures { (table.new ≡ set table.old (gap.right * 5) v.0) × (result ≡ less_of table.old gap) }
{
    let next = table[gap.right as usize * 5];
    table[gap.right as usize * 5] = v.0;
    Gap {
        first: gap.first,
        rows: gap.rows - 1,
        left: gap.left,
        rest: gap.rest - 1,
        right: next,
    }
}

// Takes the rows after the gap out of the chain, up to the first whose second figure is below the bound.
pub fn release(table: &mut [u32], v: Place, gap: Gap, bound: u32) -> Gap
    requires { Releasable table.old gap }
    ensures { Released v.0 bound table.old table.new gap result }
{
    let mut at = gap;
    // Stays: the loop goes from row to row as the chain says, and no `for` counts that.
    while 0 < at.rest {
        let h = row_cost(table, at.right as usize);
        if h[1] < bound {
            return at;
        }
        at = release_row(table, v, at);
    }
    at
}
