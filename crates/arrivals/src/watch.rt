// Which places are looked at at a step, as sets of places: those that corridors lead to from the rows of the step before, those of which a safe interval
// begins, those that a closure of the departure before the last leads to, and those where waiting is dearer than where a corridor comes from. At any other
// place the pruning rule spares every row.
ghost use Rattle.std.specs.Prelude.{◌≡◌, not, ◌<◌, ◌≤◌, eqb, length};
ghost use Rattle.sheet.specs.Lists.{number};
ghost use Rattle.arrivals.specs.Inner.Network.{net_room, count_of, closures_of, closure_of};
ghost use Rattle.arrivals.specs.Inner.Lent.{Linked, Closing};
ghost use Rattle.arrivals.specs.Inner.Due.{LinkWatched, LinksWatched, ClosureWatched, ClosuresWatched, Watches, step_set, led_on};

use crate::network::{SHUT_COUNT, closure_number, count_of, is_dear, link_end};
use intervals::sets::{add, add_begins, union};
use sheet::held::HeldSheet;
use sheet::{Place, Step};

// The sets: from 0, for each step, the places that are looked at then whatever rows there are; for each place, those that corridors lead to from it; those
// that are looked at at each step; and how many sets there are.
pub const ONWARD: usize = 258;

pub const ALWAYS: usize = 322;

pub const SETS: usize = 323;

// Adds the place that corridor j leads to.
pub fn watch_link(net: &[u32], j: usize, sets: &mut [u64])
    requires { (Linked net.now) × (j < count_of net.now) × (323 ≤ length sets.old) }
    ensures { LinkWatched net.now j sets.old sets.new }
{
    let from = link_end(net, j, 0);
    add(sets, ONWARD + from.0 as usize, link_end(net, j, 1));
    if is_dear(net, j) {
        add(sets, ALWAYS, link_end(net, j, 1));
    }
}

// Adds the places that corridors lead to.
pub fn watch_links(net: &[u32], sets: &mut [u64])
    requires { (Linked net.now) × (323 ≤ length sets.old) }
    ensures { LinksWatched net.now (count_of net.now) sets.old sets.new }
{
    for j in 0..count_of(net) {
        watch_link(net, j, sets);
    }
}

// Adds the place that closure x leads to, for the second step after its own.
pub fn watch_closure(net: &[u32], x: usize, sets: &mut [u64])
    requires { (x < 256) × (net_room ≤ length net.now) × (closure_of net.now 1 x < 64) × (323 ≤ length sets.old) }
    ensures { ClosureWatched net.now x sets.old sets.new }
{
    let s = closure_number(net, x, 2) as usize;
    if s < 256 {
        add(sets, s + 2, Place(closure_number(net, x, 1)));
    }
}

// Adds the places that closures lead to.
pub fn watch_closures(net: &[u32], sets: &mut [u64])
    requires { (Closing net.now) × (323 ≤ length sets.old) }
    ensures { ClosuresWatched net.now (closures_of net.now) sets.old sets.new }
{
    for x in 0..net[SHUT_COUNT] as usize {
        watch_closure(net, x, sets);
    }
}

// Fills the sets of a sheet, of which the network is laid out.
pub fn watch(sheet: &HeldSheet, net: &[u32], sets: &mut [u64])
    requires { (Linked net.now) × (Closing net.now) × (323 ≤ length sets.old) }
    ensures { Watches sheet.now net.now sets.new }
{
    add_begins(sheet, sets);
    watch_links(net, sets);
    watch_closures(net, sets);
}

// The places that are looked at at step t, where corridors lead to `next` from the rows of the step before.
pub fn step_set(sets: &[u64], next: u64, t: Step) -> u64
    requires { (t.0 ≤ 255) × (323 ≤ length sets.now) }
    ensures { result ≡ step_set sets.now next t.0 }
{
    let own = sets[t.0 as usize];
    let always = sets[ALWAYS];
    union(union(next, own), always)
}

// The set with the places that corridors lead to from v, where the rows from n to m are new rows of v.
pub fn led_on(sets: &[u64], next: u64, v: Place, n: usize, m: usize) -> u64
    requires { (v.0 < 64) × (323 ≤ length sets.now) }
    ensures { result ≡ led_on sets.now next v.0 n m }
{
    if n < m {
        let onward = sets[ONWARD + v.0 as usize];
        return union(next, onward);
    }
    next
}

// Is waiting dearer somewhere than where a corridor comes from?
pub fn is_somewhere_dear(sets: &[u64]) -> bool
    requires { 323 ≤ length sets.now }
    ensures { result ≡ not (eqb (number sets.now 322) 0) }
{
    sets[ALWAYS] != 0
}
