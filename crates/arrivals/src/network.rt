// What is searched, as one lent array, and the lent first steps of safe intervals, read by name.
ghost use Rattle.std.specs.Prelude.{◌≡◌, true, false, ◌+◌, ◌*◌, ◌<◌, ◌≤◌, length};
ghost use Rattle.sheet.specs.Lists.{numbers_from};
ghost use Rattle.costs.specs.Costs.{figures};
ghost use Rattle.sheet.specs.Laws.Decided.{Decided};
ghost use Rattle.arrivals.specs.Inner.Network.{net_room, wait_in, link_of, link_at, openb, open_in, count_of, places_of, start_of, dear_of};
ghost use Rattle.arrivals.specs.Inner.Network.{closure_of, closures_of, into_of, Closes};
ghost use Rattle.arrivals.specs.Inner.Chains.{by_place, by_cell, cell, last_of, Chained, NextOne};
ghost use Rattle.arrivals.specs.Inner.Lent.{Closing};

use costs::cost_from;
use sheet::{Place, Step};

// The parts of the array: from 0 the costs of waiting; then two chains of corridors; the corridors; their number, that of places, the start and the
// number of closures; by place, 1 where a closure leads to it; by corridor, 1 where waiting is dearer where that leads to than where it comes from; the
// chain of closures, by cell and by closure; the closures; and its length.
pub const CHAINS: usize = 192;

pub const CHAIN: usize = 320;

pub const LINKS: usize = 832;

pub const COUNT: usize = 2112;

pub const PLACES: usize = 2113;

pub const START: usize = 2114;

pub const SHUT_COUNT: usize = 2115;

pub const INTO: usize = 2116;

pub const DEAR: usize = 2180;

pub const SHUT: usize = 2436;

pub const SHUT_NEXT: usize = 3460;

pub const CLOSURES: usize = 3716;

pub const NETWORK: usize = 4484;

// Where rows are sought and added: a place and a step, the first step of the safe interval of the place that holds the step, and the cost of
// waiting there.
#[derive(Clone, Copy)]
pub struct Here {
    pub place: Place,
    pub step: Step,
    pub since: Step,
    pub wait: [u32; 3],
}

// Where a corridor comes from: the place, the first step whose rows are tried, the cost of waiting there and that of crossing.
#[derive(Clone, Copy)]
pub struct Source {
    pub place: Place,
    pub floor: Step,
    pub wait: [u32; 3],
    pub cost: [u32; 3],
}

// The cost of waiting one step at place v.
pub fn wait_of(net: &[u32], v: Place) -> [u32; 3]
    requires { (v.0 < 64) × (net_room ≤ length net.now) }
    ensures { result ≡ wait_in net.now v.0 }
{
    cost_from(net, v.0 as usize * 3)
}

// The number of corridors.
pub fn count_of(net: &[u32]) -> usize
    requires { net_room ≤ length net.now }
    ensures { result ≡ count_of net.now }
{
    net[COUNT] as usize
}

// The number of places.
pub fn places_of(net: &[u32]) -> u32
    requires { net_room ≤ length net.now }
    ensures { result ≡ places_of net.now }
{
    net[PLACES]
}

// The start.
pub fn start_of(net: &[u32]) -> Place
    requires { net_room ≤ length net.now }
    ensures { result.0 ≡ start_of net.now }
{
    Place(net[START])
}

// Place q of corridor j: 0 is where it comes from, 1 where it leads to.
pub fn link_end(net: &[u32], j: usize, q: usize) -> Place
    requires { (j < 256) × (q < 2) × (net_room ≤ length net.now) }
    ensures { result.0 ≡ link_of net.now q j }
{
    Place(net[LINKS + j * 5 + q])
}

// The cost of corridor j.
pub fn link_cost(net: &[u32], j: usize) -> [u32; 3]
    requires { (j < 256) × (net_room ≤ length net.now) }
    ensures { result ≡ numbers_from figures (832 + j * 5 + 2) net.now }
{
    cost_from(net, LINKS + j * 5 + 2)
}

// Number q of closure x: where its corridor comes from, where that leads to, and the step.
pub fn closure_number(net: &[u32], x: usize, q: usize) -> u32
    requires { (x < 256) × (q < 3) × (net_room ≤ length net.now) }
    ensures { result ≡ closure_of net.now q x }
{
    net[CLOSURES + x * 3 + q]
}

// The cell of place v and step s: sixteen for each place, one for each run of sixteen steps.
pub fn cell_of(v: Place, s: Step) -> usize
    requires { v.0 < 64 }
    ensures { (result ≡ cell v.0 s.0) × (result < 1024) }
{
    (v.0 * 16 + s.0 / 16 % 16) as usize
}

// One more than the last closure of a cell.
// Stays: 0 for none, as it stands in the array of u32, whose memory is fixed.
pub fn last_shut(net: &[u32], cell: usize) -> usize
    requires { (cell < 1024) × (net_room ≤ length net.now) }
    ensures { result ≡ last_of by_cell net.now cell }
{
    net[SHUT + cell] as usize
}

// One more than the last closure before closure x of the same cell, as far as the chain shows.
// Stays: its twin next_link makes another key; what they share is one test.
pub fn next_shut(net: &[u32], x: usize, cell: usize) -> usize
    requires { (Closing net.now) × (x < closures_of net.now) }
    ensures { NextOne by_cell net.now cell x result }
{
    let own = cell_of(
        Place(closure_number(net, x, 1)),
        Step(closure_number(net, x, 2)),
    );
    if own == cell {
        return net[SHUT_NEXT + x] as usize;
    }
    x
}

// Does no closure lead to place v?
pub fn is_plain(net: &[u32], v: Place) -> bool
    requires { (v.0 < 64) × (net_room ≤ length net.now) }
    ensures { result ≡ true → into_of net.now v.0 ≡ 0 }
{
    net[INTO + v.0 as usize] == 0
}

// Is closure x of the corridor from u to v at step s?
pub fn closes(net: &[u32], x: usize, u: Place, v: Place, s: Step) -> bool
    requires { (x < 256) × (net_room ≤ length net.now) }
    ensures { Decided (Closes net.now u.0 v.0 s.0 x) result }
{
    let from = closure_number(net, x, 0);
    let to = closure_number(net, x, 1);
    let step = closure_number(net, x, 2);
    (from == u.0) & (to == v.0) & (step == s.0)
}

// Is the way from u to v open at step s? The last closure of the cell of v and s is the one before closure `last`.
pub fn none_between(net: &[u32], last: usize, u: Place, v: Place, s: Step) -> bool
    requires { (Closing net.now) × (v.0 < 64) × (last ≡ last_of by_cell net.now (cell v.0 s.0)) }
    ensures { result ≡ open_in net.now u.0 v.0 s.0 }
{
    let at = cell_of(v, s);
    let mut x = last;
    // Stays: x jumps along the chain, no `for` counts it.
    while 0 < x {
        x -= 1;
        if closes(net, x, u, v, s) {
            return false;
        }
        x = next_shut(net, x, at);
    }
    true
}

// May corridor j be departed by at step s?
pub fn is_open(net: &[u32], j: usize, s: Step) -> bool
    requires { (j < 256) × (link_of net.now 1 j < 64) × (Closing net.now) }
    ensures { result ≡ openb (link_at net.now j) s.0 }
{
    let v = link_end(net, j, 1);
    if is_plain(net, v) {
        return true;
    }
    let last = last_shut(net, cell_of(v, s));
    if last == 0 {
        return true;
    }
    none_between(net, last, link_end(net, j, 0), v, s)
}

// Is waiting dearer where corridor j leads to than where it comes from?
pub fn is_dear(net: &[u32], j: usize) -> bool
    requires { (j < 256) × (net_room ≤ length net.now) }
    ensures { result ≡ false → dear_of net.now j ≡ 0 }
{
    net[DEAR + j] != 0
}

// One more than the last corridor whose place q is v.
// Stays: 0 for none, as it stands in the array of u32, whose memory is fixed.
pub fn last_link(net: &[u32], q: usize, v: Place) -> usize
    requires { (q < 2) × (v.0 < 64) × (net_room ≤ length net.now) }
    ensures { result ≡ last_of (by_place q) net.now v.0 }
{
    net[CHAINS + q * CHAIN + v.0 as usize] as usize
}

// One more than the last corridor before corridor j whose place q is v, as far as the chain shows.
pub fn next_link(net: &[u32], q: usize, j: usize, v: Place) -> usize
    requires { (q < 2) × (j < 256) × (net_room ≤ length net.now) × (j < count_of net.now) × (Chained (by_place q) net.now (count_of net.now)) }
    ensures { NextOne (by_place q) net.now v.0 j result }
{
    if net[LINKS + j * 5 + q] == v.0 {
        return net[CHAINS + q * CHAIN + 64 + j] as usize;
    }
    j
}
