// The network is laid out from a sheet: waits, corridors, closures and counts, then the chains, then where waiting is dearer.
ghost use Rattle.std.specs.Prelude.{◌≡◌, ◌+◌, ◌<◌, ◌≤◌, length, set};
ghost use Rattle.sheet.specs.Lists.{flat};
ghost use Rattle.arrivals.specs.Inner.Network.{net_room, count_of, link_of, closures_of, closure_of};
ghost use Rattle.arrivals.specs.Inner.Chains.{by_place, by_cell, Chained, chained_with};
ghost use Rattle.arrivals.specs.Inner.Lent.{Linked};
ghost use Rattle.arrivals.specs.Inner.Laying.{WaitsLaid, Copied, LinksLaid, ClosuresLaid, Counted, Empty, LaidIn};
ghost use Rattle.arrivals.specs.Inner.Laying.{Celled, NotedLaid, Blank, ChainedMore, ChainLaid, WeighedTo, WeighedMore, Weighed};

use crate::network::{
    CHAIN, CHAINS, CLOSURES, COUNT, DEAR, INTO, LINKS, PLACES, SHUT, SHUT_COUNT, START, cell_of,
    closure_number, count_of, link_end, wait_of,
};
use crate::rows::put_figures;
use costs::{at_most, wait_at};
use sheet::held::HeldSheet;
use sheet::kinds::{C_LINE, X_LINE};
use sheet::{Place, Step};

// The cost of waiting at each place.
pub fn lay_waits(sheet: &HeldSheet, net: &mut [u32])
    requires { net_room ≤ length net.old }
    ensures { WaitsLaid sheet.now net.old net.new }
{
    for v in 0..sheet.places() {
        put_figures(net, v as usize * 3, wait_at(sheet, Place(v)));
    }
}

// n numbers of the sheet, from number `from` on, into the network, from number `at` on.
pub fn copy(all: &[u32], from: usize, net: &mut [u32], at: usize, n: usize)
    requires { (from + n ≤ length all.now) × (at + n ≤ length net.old) }
    ensures { Copied from at n all.now net.old net.new }
{
    // Stays: by copy_from_slice the archive would call memmove, of which a host has been told nothing (tests/host).
    for i in 0..n {
        net[at + i] = all[from + i];
    }
}

// The corridors.
pub fn lay_links(sheet: &HeldSheet, net: &mut [u32])
    requires { net_room ≤ length net.old }
    ensures { LinksLaid (flat sheet.now.corridors) net.old net.new }
{
    let group = sheet.group(C_LINE);
    copy(group, 0, net, LINKS, group.len());
}

// The closures.
pub fn lay_closures(sheet: &HeldSheet, net: &mut [u32])
    requires { net_room ≤ length net.old }
    ensures { ClosuresLaid (flat sheet.now.closures) net.old net.new }
{
    let group = sheet.group(X_LINE);
    copy(group, 0, net, CLOSURES, group.len());
}

// The number of corridors, the number of places, the start and the number of closures.
pub fn lay_counts(net: &mut [u32], count: u32, places: u32, start: Place, closures: u32)
    requires { net_room ≤ length net.old }
    ensures { Counted count places start.0 closures net.old net.new }
{
    net[COUNT] = count;
    net[PLACES] = places;
    net[START] = start.0;
    net[SHUT_COUNT] = closures;
}

// Item j in the chain of its key, where the chain begins at first and has so many keys.
pub fn chain_item(net: &mut [u32], first: usize, keys: usize, key: u32, j: usize)
    requires { (key < keys) × (j < 256) × (first + keys + 256 ≤ length net.old) }
    ensures { net.new ≡ chained_with first keys net.old key j }
{
    let at = first + key as usize;
    net[first + keys + j] = net[at];
    net[at] = (j + 1) as u32;
}

// One corridor more in the chain of its place q.
pub fn chain_link(net: &mut [u32], j: usize, q: usize)
    requires { (q < 2) × (j < 256) × (net_room ≤ length net.old) × (link_of net.old q j < 64) × (Chained (by_place q) net.old j) }
    ensures { ChainedMore (by_place q) j net.old net.new }
{
    let end = link_end(net, j, q);
    chain_item(net, CHAINS + q * CHAIN, 64, end.0, j);
}

// The corridors by the place that they come from, where q is 0, or lead to, where q is 1.
pub fn chain(net: &mut [u32], q: usize)
    requires { (q < 2) × (Linked net.old) × (Blank (by_place q) net.old) }
    ensures { ChainLaid (by_place q) (count_of net.old) net.old net.new }
{
    for j in 0..count_of(net) {
        chain_link(net, j, q);
    }
}

// One closure more in the chain of its cell.
// Stays: its twin chain_link makes another key; what they share is chain_item.
pub fn chain_closure(net: &mut [u32], x: usize)
    requires { (x < 256) × (net_room ≤ length net.old) × (closure_of net.old 1 x < 64) × (Chained by_cell net.old x) }
    ensures { ChainedMore by_cell x net.old net.new }
{
    let v = Place(closure_number(net, x, 1));
    let at = cell_of(v, Step(closure_number(net, x, 2)));
    chain_item(net, SHUT, 1024, at as u32, x);
}

// The closures by their cells.
// Stays: its twin chain has another count and another key, and a closure for the key is no plainer.
pub fn chain_closures(net: &mut [u32])
    requires { (Celled net.old) × (Blank by_cell net.old) }
    ensures { ChainLaid by_cell (closures_of net.old) net.old net.new }
{
    for x in 0..net[SHUT_COUNT] as usize {
        chain_closure(net, x);
    }
}

// A closure leads to the place of closure x.
pub fn note_closure(net: &mut [u32], x: usize)
    requires { (x < 256) × (net_room ≤ length net.old) × (closure_of net.old 1 x < 64) }
    ensures { net.new ≡ set net.old (2116 + closure_of net.old 1 x) 1 }
{
    let v = closure_number(net, x, 1) as usize;
    net[INTO + v] = 1;
}

// The places that closures lead to.
// Stays: the same loop as chain_closures, whose promise is of another part of the array.
pub fn note_closures(net: &mut [u32])
    requires { Celled net.old }
    ensures { NotedLaid (closures_of net.old) net.old net.new }
{
    for x in 0..net[SHUT_COUNT] as usize {
        note_closure(net, x);
    }
}

// Whether waiting is dearer where corridor j leads to.
pub fn weigh_link(net: &mut [u32], j: usize)
    requires { (Linked net.old) × (j < count_of net.old) × (WeighedTo net.old j) }
    ensures { WeighedMore j net.old net.new }
{
    let to = link_end(net, j, 1);
    if at_most(wait_of(net, to), wait_of(net, link_end(net, j, 0))) {
        return;
    }
    net[DEAR + j] = 1;
}

// Where waiting is dearer, for every corridor.
pub fn weigh(net: &mut [u32])
    requires { Linked net.old }
    ensures { Weighed (count_of net.old) net.old net.new }
{
    for j in 0..count_of(net) {
        weigh_link(net, j);
    }
}

// The network of a sheet, laid into a list of zeros.
pub fn lay(sheet: &HeldSheet, net: &mut [u32])
    requires { (net_room ≤ length net.old) × (Empty net.old) }
    ensures { LaidIn sheet.now net.new }
{
    lay_waits(sheet, net);
    lay_links(sheet, net);
    lay_closures(sheet, net);
    let corridors = sheet.count(C_LINE) as u32;
    let closures = sheet.count(X_LINE) as u32;
    lay_counts(net, corridors, sheet.places(), sheet.start(), closures);
    chain(net, 0);
    chain(net, 1);
    chain_closures(net);
    note_closures(net);
    weigh(net);
}
