// The live costs of each place, in lists: what its rows come to by waiting until step 255, so that rows of different steps are compared as they stand. Each
// place has room for 170 of them, those that are added at a step counted before any is dropped; where that is not enough, the search goes on without the
// lists (fill.rt).
ghost use Rattle.std.specs.Prelude.{◌≡◌, ◌+◌, ◌*◌, ◌<◌, ◌≤◌, length};
ghost use Rattle.sheet.specs.Laws.Decided.{Decided};
ghost use Rattle.costs.specs.Priced.{Within};
ghost use Rattle.arrivals.specs.Inner.Network.{since_in};
ghost use Rattle.arrivals.specs.Inner.Lists.{list_at, lists_room, LedIn, OwnIs, PartIs, FreshIn, Modest, Appended};
ghost use Rattle.arrivals.specs.Inner.Lists.{Retained, RetainedOne, Shifted, Headed, Settleable, SettledOne, AllSettleable, SettledTo};

use crate::network::Here;
use crate::rows::{put_figures, row_cost};
use costs::{at_most, cost_from, sum};
use intervals::first_step;
use intervals::sets::next_in;
use sheet::{Place, Step};

// The parts of the array: from 0, by place, the step past the newest rows; the number of costs; how many of them come before those of the newest rows; where
// costs are added at this step, the number with them; the lists, and how long each is; and the length for 6, 16 and 64 places.
pub const SIZE: usize = 64;

pub const FRESH: usize = 128;

pub const NEW: usize = 192;

pub const LISTS: usize = 256;

pub const LIST: usize = 510;

pub const FOR_SIX: usize = 3316;

pub const FOR_SIXTEEN: usize = 8416;

pub const FOR_ALL: usize = 32896;

// n costs one after another, from number `at` on.
#[derive(Clone, Copy)]
pub struct Part {
    pub at: usize,
    pub n: usize,
}

// How a cost of a source becomes one of entering: what waiting from the departure on has made too much, the cost of crossing, and what waiting from the
// arrival on comes to.
#[derive(Drop)]
pub struct Turn {
    pub over: [u32; 3],
    pub cost: [u32; 3],
    pub rest: [u32; 3],
}

// Where the list of place v begins.
pub fn list_at(v: Place) -> usize
    requires { v.0 < 64 }
    ensures { result ≡ list_at v.0 }
{
    LISTS + v.0 as usize * LIST
}

// Is one of the costs of a part nowhere above c?
pub fn is_led(live: &[u32], part: Part, c: [u32; 3]) -> bool
    requires { part.at + part.n * 3 ≤ length live.now }
    ensures { Decided (LedIn live.now part c) result }
{
    (0..part.n).any(|i| at_most(cost_from(live, part.at + i * 3), c))
}

// The costs of the place that count here: none where all its rows are of an earlier safe interval.
pub fn own_of(live: &[u32], here: Here) -> Part
    requires { (here.place.0 < 64) × (256 ≤ length live.now) }
    ensures { OwnIs live.now here result }
{
    let v = here.place;
    let at = list_at(v);
    if live[v.0 as usize] <= here.since.0 {
        return Part { at, n: 0 };
    }
    Part {
        at,
        n: live[SIZE + v.0 as usize] as usize,
    }
}

// The costs of place v: those of its newest rows, or all.
pub fn part_of(live: &[u32], v: Place, newest: bool) -> Part
    requires { (v.0 < 64) × (256 ≤ length live.now) × (FreshIn live.now v.0) }
    ensures { PartIs live.now v.0 newest result }
{
    let at = list_at(v);
    let n = live[SIZE + v.0 as usize] as usize;
    if newest {
        let old = live[FRESH + v.0 as usize] as usize;
        return Part {
            at: at + old * 3,
            n: n - old,
        };
    }
    Part { at, n }
}

// What the d rows from row `from` on come to, with `rest` added, from number `at` on.
pub fn append(table: &[u32], from: usize, d: usize, live: &mut [u32], at: usize, rest: [u32; 3])
    requires { ((from + d) * 5 ≤ length table.now) × (at + d * 3 ≤ length live.old) × (Within 100000000 rest)
        × (Modest table.now from d) }
    ensures { Appended table.now from d live.old live.new at rest }
{
    for i in 0..d {
        put_figures(live, at + i * 3, sum(row_cost(table, from + i), rest));
    }
}

// Keeps cost i of those from number `at` on as the next of the k that are kept, unless one of the part is nowhere above it.
pub fn retain_one(live: &mut [u32], at: usize, i: usize, k: usize, by: Part) -> usize
    requires { (k ≤ i) × (at + i * 3 + 3 ≤ by.at) × (by.at + by.n * 3 ≤ length live.old) }
    ensures { RetainedOne live.old live.new at i k by result }
{
    let c = cost_from(live, at + i * 3);
    if is_led(live, by, c) {
        return k;
    }
    put_figures(live, at + k * 3, c);
    k + 1
}

// Drops of the n costs from number `at` on those that one of the m after them is nowhere above.
pub fn retain(live: &mut [u32], at: usize, n: usize, m: usize) -> usize
    requires { at + (n + m) * 3 ≤ length live.old }
    ensures { Retained live.old live.new at n m result }
{
    let by = Part {
        at: at + n * 3,
        n: m,
    };
    let mut k = 0;
    for i in 0..n {
        k = retain_one(live, at, i, k, by);
    }
    k
}

// Moves the n costs from number `from` on down to number `to`.
pub fn shift(live: &mut [u32], from: usize, to: usize, n: usize)
    requires { (to ≤ from) × (from + n * 3 ≤ length live.old) }
    ensures { Shifted live.old live.new from to n }
{
    if from == to {
        return;
    }
    // Stays: by copy_within the archive would call memmove, of which a host has been told nothing (tests/host).
    for i in 0..n {
        let c = cost_from(live, from + i * 3);
        put_figures(live, to + i * 3, c);
    }
}

// The step past the newest rows of place v, the number of its costs and how many come before those of the newest rows.
pub fn head(live: &mut [u32], v: Place, past: u32, size: usize, fresh: usize)
    requires { (v.0 < 64) × (256 ≤ length live.old) × (size ≤ 170) × (fresh ≤ 170) }
    ensures { Headed live.old live.new v.0 past size fresh }
{
    live[v.0 as usize] = past;
    live[SIZE + v.0 as usize] = size as u32;
    live[FRESH + v.0 as usize] = fresh as u32;
}

// The costs that were added to place v at step t become part of its list, and what they undercut is dropped.
pub fn settle_place(live: &mut [u32], runs: &[u16], v: Place, t: Step)
    requires { (v.0 < 64) × (t.0 ≤ 255) × (16384 ≤ length runs.now) × (Settleable live.old v.0) }
    ensures { SettledOne live.old live.new v.0 (since_in runs.now v.0 t.0) t.0 }
{
    let at = list_at(v);
    let n = live[SIZE + v.0 as usize] as usize;
    let m = live[NEW + v.0 as usize] as usize - n;
    let since = first_step(runs, v, t);
    if live[v.0 as usize] <= since.0 {
        shift(live, at + n * 3, at, m);
        head(live, v, t.0 + 1, m, 0);
        return;
    }
    let k = retain(live, at, n, m);
    shift(live, at + n * 3, at + k * 3, m);
    head(live, v, t.0 + 1, k + m, k);
}

// Settles the places of a set.
pub fn settle_all(live: &mut [u32], runs: &[u16], set: u64, places: u32, t: Step)
    requires { (places ≤ 64) × (t.0 ≤ 255) × (16384 ≤ length runs.now) × (lists_room places ≤ length live.old) × (AllSettleable live.old set places) }
    ensures { SettledTo runs.now live.old live.new set places t.0 }
{
    let mut v = 0;
    // Stays: v jumps to the next place of the set, no `for` counts it.
    while v < places {
        let w = next_in(set, v);
        if places <= w {
            return;
        }
        settle_place(live, runs, Place(w), t);
        v = w + 1;
    }
}
