// The front off the goal's rows: these are passed in the order of their costs, and a row is on the front unless a row passed before it is nowhere
// above it. Of the rows passed, the stair holds those that can still stand below another: the third figure ascends along it, so that a search in it
// ends early, and a row leaves it when the one that is put in is nowhere above it in the second and third figure.
ghost use Rattle.std.specs.Prelude.{◌≡◌, ◌∷◌, [], ◌++◌, ◌+◌, ◌*◌, ◌≤◌, ◌<◌, length};
ghost use Rattle.std.proofs.lemmas.List.Edits.{sets};
ghost use Rattle.journeys.specs.Inner.Sweep.{Climbable, Climbed, Sweepable, SweptOne, SweptTo, Undone, Begun};
ghost use Rattle.journeys.specs.Inner.Sweep.{Listable, ListedOne, ListedAll, ListableFront, FrontCounted, FrontNumbered, FrontListed};

use crate::chain::{Spot, link_in, next_gap, release, start};
use crate::goal::order_rows;
use crate::slow::{count_rows, list_slow, nth_slow};
use arrivals::rows::{clear_from, row_cost};
use costs::at_most;
use sheet::{Place, Step};

// A front cost with its arrival step.
#[derive(Clone, Copy)]
pub struct Offered {
    pub cost: [u32; 3],
    pub step: Step,
}

// The rows passed and to be passed: the first row ahead and the count of them, the stair's first row and the count of its rows, the count of rows on
// the front so far and the last of them.
#[derive(Clone, Copy)]
pub struct Sweep {
    pub at: u32,
    pub rest: usize,
    pub top: u32,
    pub size: usize,
    pub count: usize,
    pub row: u32,
}

// Looks in the stair for a row that is nowhere above row k.
fn climb(table: &[u32], top: u32, size: usize, k: u32) -> Spot
    requires { Climbable table.now top size k }
    ensures { Climbed table.now top size k result }
{
    let g = row_cost(table, k as usize);
    let mut gap = start(top, size);
    // Stays: the loop goes from row to row as the chain says, and no `for` counts that.
    while 0 < gap.rest {
        let h = row_cost(table, gap.right as usize);
        if at_most(h, g) {
            return Spot { led: true, gap };
        }
        if g[2] <= h[2] {
            return Spot { led: false, gap };
        }
        gap = next_gap(table, gap);
    }
    Spot { led: false, gap }
}

// Passes the next row: on the front it is put into the stair, and the rows of the stair that it makes useless are released.
fn pass_row(table: &mut [u32], v: Place, s: Sweep) -> Sweep
    requires { (0 < s.rest) × (Sweepable v.0 table.old s) }
    ensures { SweptOne v.0 table.old table.new s result }
{
    let k = s.at;
    let next = table[k as usize * 5];
    let c = climb(table, s.top, s.size, k);
    if c.led {
        table[k as usize * 5] = v.0;
        return Sweep {
            at: next,
            rest: s.rest - 1,
            top: s.top,
            size: s.size,
            count: s.count,
            row: s.row,
        };
    }
    let g = row_cost(table, k as usize);
    let low = release(table, v, c.gap, g[1]);
    let stair = link_in(table, low, k);
    Sweep {
        at: next,
        rest: s.rest - 1,
        top: stair.first,
        size: stair.rows,
        count: s.count + 1,
        row: k,
    }
}

// Passes rows until so many of them are on the front, or none is left.
fn pass_rows(table: &mut [u32], v: Place, from: Sweep, most: usize) -> Sweep
    requires { (Sweepable v.0 table.old from) × (from.count ≤ most) }
    ensures { SweptTo v.0 most table.old table.new from result }
{
    let mut s = from;
    // Stays: the loop goes from row to row as the chain says, and no `for` counts that.
    while 0 < s.rest {
        if most <= s.count {
            return s;
        }
        s = pass_row(table, v, s);
    }
    s
}

// Begins at the first of the arrivals at place v that count, of the first n rows.
fn begin(table: &mut [u32], n: usize, v: Place, counting: &[u8]) -> Sweep
    requires { (n ≤ 4294967295) × (n * 5 ≤ length table.old) }
    ensures { Begun v.0 counting.now n table.old table.new result }
{
    let all = order_rows(table, n, v, counting);
    Sweep {
        at: all.first,
        rest: all.rows,
        top: 0,
        size: 0,
        count: 0,
        row: 0,
    }
}

// Puts v back into the place column of every row, so that the table is as it was.
fn undo(table: &mut [u32], v: Place, s: Sweep)
    requires { Sweepable v.0 table.old s }
    ensures { Undone v.0 table.old table.new s }
{
    release(table, v, start(s.at, s.rest), 0);
    release(table, v, start(s.top, s.size), 0);
}

// The count of front costs.
pub fn count_front(table: &mut [u32], n: usize, v: Place, counting: &[u8]) -> usize
    requires { n * 5 ≤ length table.old }
    ensures { FrontCounted v.0 counting.now n table.old table.new result }
{
    if 4294967295 < n {
        return count_rows(table, n, v, counting, true, [0; 3]);
    }
    let all = begin(table, n, v, counting);
    let end = pass_rows(table, v, all, 4294967295);
    undo(table, v, end);
    end.count
}

// The front cost with a number, from 0, with its arrival step.
pub fn nth_front(
    table: &mut [u32],
    n: usize,
    v: Place,
    counting: &[u8],
    number: u32,
) -> Option<Offered>
    requires { n * 5 ≤ length table.old }
    ensures { FrontNumbered v.0 counting.now n table.old table.new number result }
{
    if 4294967295 < n {
        return nth_slow(table, n, v, counting, number as usize);
    }
    let all = begin(table, n, v, counting);
    let end = pass_rows(table, v, all, number as usize + 1);
    undo(table, v, end);
    if end.count <= number as usize {
        return None;
    }
    Some(Offered {
        cost: row_cost(table, end.row as usize),
        step: Step(table[end.row as usize * 5 + 1]),
    })
}

// Writes row i of the front list: three figures and the arrival step.
pub fn put_cost(list: &mut [u32], i: usize, cost: [u32; 3], step: Step)
    requires { i * 4 + 4 ≤ length list.old }
    ensures { list.new ≡ sets list.old (i * 4) (cost ++ (step.0 ∷ [])) }
{
    list[i * 4..i * 4 + 3].copy_from_slice(&cost);
    list[i * 4 + 3] = step.0;
}

// Passes the next row and lists it, if it is on the front.
fn list_row(table: &mut [u32], v: Place, s: Sweep, list: &mut [u32]) -> Sweep
    requires { (0 < s.rest) × (Listable v.0 table.old s list.old) }
    ensures { ListedOne v.0 table.old table.new s result list.old list.new }
{
    let r = pass_row(table, v, s);
    if r.count == s.count {
        return r;
    }
    let cost = row_cost(table, r.row as usize);
    let step = Step(table[r.row as usize * 5 + 1]);
    put_cost(list, s.count, cost, step);
    r
}

// Passes all rows and lists those on the front.
fn list_rows(table: &mut [u32], v: Place, from: Sweep, list: &mut [u32]) -> Sweep
    requires { Listable v.0 table.old from list.old }
    ensures { ListedAll v.0 table.old table.new from result list.old list.new }
{
    let mut s = from;
    // Stays: the loop goes from row to row as the chain says, and no `for` counts that.
    while 0 < s.rest {
        s = list_row(table, v, s, list);
    }
    s
}

// Writes the front list: a row of three figures and the arrival step for each front cost, in order, then zeros to its end.
pub fn list_front(table: &mut [u32], n: usize, v: Place, counting: &[u8], list: &mut [u32])
    requires { ListableFront v.0 counting.now n table.old list.old }
    ensures { FrontListed v.0 counting.now n table.old table.new list.old list.new }
{
    if 4294967295 < n {
        list_slow(table, n, v, counting, list);
        return;
    }
    let all = begin(table, n, v, counting);
    let end = list_rows(table, v, all, list);
    undo(table, v, end);
    clear_from(list, end.count * 4);
}
