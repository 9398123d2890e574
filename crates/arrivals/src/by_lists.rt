// The search by lists of live costs: place by place and step by step, as long as the lists have room.
ghost use Rattle.std.specs.Prelude.{◌≡◌, is_ok, ◌+◌, ◌*◌, ◌-◌, ◌<◌, ◌≤◌, length, replicate};
ghost use Rattle.costs.specs.Costs.{times};
ghost use Rattle.costs.specs.Priced.{Within};
ghost use Rattle.arrivals.specs.Inner.Network.{case_of, link_of, link_at, count_of, places_of, wait_in, Vacant};
ghost use Rattle.arrivals.specs.Inner.Lent.{Given};
ghost use Rattle.arrivals.specs.Inner.Filling.{Reaching, Visiting};
ghost use Rattle.arrivals.specs.Inner.Due.{Searchable, Watching, Onward};
ghost use Rattle.arrivals.specs.Inner.Sweeps.{SweptAt, OffersLink, OffersLinks};
ghost use Rattle.arrivals.specs.Inner.Lists.{size_of, list_at, lists_room, stood, Shows, Placeable, Turnable, Brought, Sourcing, Sources, Modest, NewIn};
ghost use Rattle.arrivals.specs.Inner.Outcomes.{offered, live_to};
ghost use Rattle.arrivals.specs.Inner.Lists.{LiveVisited, LiveStepped, StartLive, Found, grown_by};

use crate::expand::fresh;
use crate::fill::{Stepped, next_place};
use crate::lists::{
    FOR_ALL, FOR_SIX, FOR_SIXTEEN, NEW, Part, SIZE, Turn, append, head, is_led, list_at, own_of,
    part_of, settle_all,
};
use crate::network::{
    Here, is_open, last_link, link_cost, link_end, next_link, places_of, start_of, wait_of,
};
use crate::offers::{Full, put_in};
use crate::rows::{push_row, put_figures};
use crate::watch::{led_on, step_set};
use costs::{cost_from, less, multiple, sum};
use intervals::first_step;
use intervals::sets::with;
use sheet::{Place, Step};

// A place and step, with the live costs of the place that count there.
#[derive(Clone, Copy)]
pub struct Site {
    pub here: Here,
    pub own: Part,
}

// Offers the cost g, which comes to c, to the d rows from row a on.
pub fn offer_live(
    table: &mut [u32],
    a: usize,
    d: usize,
    live: &[u32],
    site: Site,
    g: [u32; 3],
    c: [u32; 3],
) -> Result<usize, Full>
    requires { (Placeable table.old a d site.here) × (Shows live.now site.own table.old a site.here)
        × (c ≡ stood site.here.step.0 site.here.wait g) }
    ensures { SweptAt (λ h. h ≡ g) site.here a table.old table.new d (offered result).ok (offered result).rows }
{
    if is_led(live, site.own, c) {
        return Ok(d);
    }
    put_in(table, a, d, site.here, g)
}

// Offers what the costs of a part come to by a turn.
pub fn from_part(
    table: &mut [u32],
    a: usize,
    d: usize,
    live: &[u32],
    part: Part,
    turn: Turn,
    site: Site,
) -> Result<usize, Full>
    requires { (Placeable table.old a d site.here) × (Shows live.now site.own table.old a site.here) × (Turnable live.now part turn)
        × (turn.rest ≡ times (255 - site.here.step.0) site.here.wait) }
    ensures { SweptAt (Brought live.now part turn) site.here a table.old table.new d (offered result).ok (offered result).rows }
{
    let mut e = d;
    for i in 0..part.n {
        let held = cost_from(live, part.at + i * 3);
        let g = sum(less(held, turn.over), turn.cost);
        e = offer_live(table, a, e, live, site, g, sum(g, turn.rest))?;
    }
    Ok(e)
}

// How a cost of the place that corridor j comes from becomes one of entering here.
pub fn turn_of(net: &[u32], j: usize, here: Here) -> Turn
    requires { (j < 256) × (link_of net.now 0 j < 64) × (4484 ≤ length net.now) × (1 ≤ here.step.0) × (here.step.0 ≤ 255)
        × (Within 60000 (wait_in net.now (link_of net.now 0 j))) × (Within 60000 here.wait) }
    ensures { (result.over ≡ times (256 - here.step.0) (wait_in net.now (link_of net.now 0 j)))
        × (result.cost ≡ (link_at net.now j).cost) × (result.rest ≡ times (255 - here.step.0) here.wait) }
{
    Turn {
        over: multiple(256 - here.step.0, wait_of(net, link_end(net, j, 0))),
        cost: link_cost(net, j),
        rest: multiple(255 - here.step.0, here.wait),
    }
}

// Offers what comes over corridor j.
pub fn over_link(
    table: &mut [u32],
    a: usize,
    d: usize,
    live: &[u32],
    net: &[u32],
    runs: &[u16],
    j: usize,
    site: Site,
) -> Result<usize, Full>
    requires { (Reaching runs.now net.now table.old a site.here) × (Placeable table.old a d site.here)
        × (Shows live.now site.own table.old a site.here) × (Sources runs.now net.now table.old a live.now site.here.step.0)
        × (j < count_of net.now) }
    ensures { OffersLink runs.now net.now j table.old table.new a d site.here (offered result) }
{
    let here = site.here;
    if link_end(net, j, 1) != here.place {
        return Ok(d);
    }
    let from = link_end(net, j, 0);
    let past = Step(live[from.0 as usize]);
    let first = fresh(net, j, here);
    if past <= first {
        return Ok(d);
    }
    let since = first_step(runs, from, Step(here.step.0 - 1));
    if past <= since {
        return Ok(d);
    }
    if !is_open(net, j, Step(here.step.0 - 1)) {
        return Ok(d);
    }
    let part = part_of(live, from, first.0 + 1 == here.step.0);
    from_part(table, a, d, live, part, turn_of(net, j, here), site)
}

// Offers what comes over every corridor.
pub fn over_links(
    table: &mut [u32],
    a: usize,
    live: &[u32],
    net: &[u32],
    runs: &[u16],
    site: Site,
) -> Result<usize, Full>
    requires { (Reaching runs.now net.now table.old a site.here) × (Shows live.now site.own table.old a site.here)
        × (Sources runs.now net.now table.old a live.now site.here.step.0) }
    ensures { OffersLinks runs.now net.now table.old table.new a site.here (offered result) }
{
    let here = site.here;
    let mut e = 0;
    let mut j = last_link(net, 1, here.place);
    // Stays: the chain of the place says which corridor is next, no `for` counts it.
    while 0 < j {
        j -= 1;
        e = over_link(table, a, e, live, net, runs, j, site)?;
        j = next_link(net, 1, j, here.place);
    }
    Ok(e)
}

// The d rows of here from row n on are added to the live costs of the place, if there is room.
pub fn add_new(table: &[u32], n: usize, d: usize, live: &mut [u32], here: Here) -> Result<(), Full>
    requires { ((n + d) * 5 ≤ length table.now) × (here.place.0 < 64) × (here.step.0 ≤ 255) × (Within 60000 here.wait) × (Modest table.now n d)
        × (list_at here.place.0 + 510 ≤ length live.old) × (size_of live.old here.place.0 ≤ 170) }
    ensures { NewIn table.now n d live.old live.new here (is_ok result) }
{
    let v = here.place;
    let size = live[SIZE + v.0 as usize] as usize;
    if 170 - size < d {
        return Err(Full);
    }
    let rest = multiple(255 - here.step.0, here.wait);
    append(table, n, d, live, list_at(v) + size * 3, rest);
    live[NEW + v.0 as usize] = (size + d) as u32;
    Ok(())
}

// Fills in place v at step t, which is free, or gives up.
pub fn visit_live(
    table: &mut [u32],
    n: usize,
    live: &mut [u32],
    net: &[u32],
    runs: &[u16],
    v: Place,
    t: Step,
) -> Result<usize, Full>
    requires { (Visiting runs.now net.now table.old n v.0 t.0) × (Vacant (case_of runs.now net.now) v.0 t.0)
        × (Sources runs.now net.now table.old n live.old t.0) }
    ensures { LiveVisited runs.now net.now table.old table.new live.old live.new n
        v.0 t.0 (offered result) }
{
    let here = Here {
        place: v,
        step: t,
        since: first_step(runs, v, t),
        wait: wait_of(net, v),
    };
    let own = own_of(live, here);
    let d = over_links(table, n, live, net, runs, Site { here, own })?;
    if d == 0 {
        return Ok(n);
    }
    add_new(table, n, d, live, here)?;
    Ok(n + d)
}

// The set with v, if the rows from n to m are new rows of v.
pub fn grown_by(set: u64, v: Place, n: usize, m: usize) -> u64
    requires { v.0 < 64 }
    ensures { result ≡ grown_by set v.0 n m }
{
    if n < m {
        return with(set, v);
    }
    set
}

// Fills in step t, where corridors lead to `next` from the rows of the step before, or gives up.
pub fn live_step(
    table: &mut [u32],
    rows: usize,
    live: &mut [u32],
    sets: &[u64],
    net: &[u32],
    runs: &[u16],
    t: Step,
    next: u64,
) -> Result<Stepped, Full>
    requires { (Visiting runs.now net.now table.old rows 0 t.0) × (Sourcing runs.now net.now table.old rows rows live.old t.0)
        × (Watching runs.now net.now sets.now) × (Onward net.now table.old rows t.0 next) }
    ensures { LiveStepped runs.now net.now table.old table.new rows live.new t.0 (live_to result) }
{
    let set = step_set(sets, next, t);
    let mut n = rows;
    let mut onward = 0u64;
    let mut grown = 0u64;
    let mut at = next_place(set, net, runs, 0, t);
    while let Some(v) = at {
        let m = visit_live(table, n, live, net, runs, v, t)?;
        onward = led_on(sets, onward, v, n, m);
        grown = grown_by(grown, v, n, m);
        n = m;
        at = next_place(set, net, runs, v.0 + 1, t);
    }
    settle_all(live, runs, grown, places_of(net), t);
    Ok(Stepped {
        rows: n,
        next: onward,
    })
}

// Where the search by lists gave up: before a step, from which it can go on with so many rows.
#[derive(Clone, Copy)]
pub struct Halt {
    pub rows: usize,
    pub step: Step,
}

// Fills in every step to the last, or gives up. At step 1 every place is looked at.
pub fn live_steps(
    table: &mut [u32],
    rows: usize,
    live: &mut [u32],
    sets: &[u64],
    net: &[u32],
    runs: &[u16],
    last: Step,
) -> Result<usize, Option<Halt>>
    requires { (Visiting runs.now net.now table.old rows 0 1) × (Sourcing runs.now net.now table.old rows rows live.old 1)
        × (last.0 ≤ 255) × (Watching runs.now net.now sets.now) }
    ensures { Found runs.now net.now table.new last.0 result }
{
    let mut n = rows;
    let mut next = u64::MAX;
    for t in 1..last.0 + 1 {
        let Ok(r) = live_step(table, n, live, sets, net, runs, Step(t), next) else {
            return Err(Some(Halt {
                rows: n,
                step: Step(t),
            }));
        };
        n = r.rows;
        next = r.next;
    }
    Ok(n)
}

// The row of the start, where that is free at step 0, and its live cost.
pub fn start_live(
    table: &mut [u32],
    live: &mut [u32],
    net: &[u32],
    runs: &[u16],
) -> Result<usize, Full>
    requires { (Given runs.now net.now) × (lists_room (places_of net.now) ≤ length live.old) × (live.old ≡ replicate (length live.old) 0) }
    ensures { StartLive runs.now net.now table.new live.new (offered result) }
{
    let start = start_of(net);
    let since = first_step(runs, start, Step(0));
    if 0 < since.0 {
        return Ok(0);
    }
    if table.len() < 5 {
        return Err(Full);
    }
    push_row(table, 0, start, Step(0), [0; 3]);
    put_figures(live, list_at(start), multiple(255, wait_of(net, start)));
    head(live, start, 1, 1, 0);
    Ok(1)
}

// All the rows of the search, or given up.
pub fn search_live(
    table: &mut [u32],
    live: &mut [u32],
    sets: &[u64],
    net: &[u32],
    runs: &[u16],
    last: Step,
) -> Result<usize, Option<Halt>>
    requires { (Searchable runs.now net.now sets.now last.0) × (lists_room (places_of net.now) ≤ length live.old)
        × (live.old ≡ replicate (length live.old) 0) }
    ensures { Found runs.now net.now table.new last.0 result }
{
    let Ok(rows) = start_live(table, live, net, runs) else {
        return Err(None);
    };
    live_steps(table, rows, live, sets, net, runs, last)
}

// The same, with the least of three rooms for lists that the places fit in: clearing it takes most of the time where there are few.
pub fn search_lists(
    table: &mut [u32],
    sets: &[u64],
    net: &[u32],
    runs: &[u16],
    last: Step,
) -> Result<usize, Option<Halt>>
    requires { Searchable runs.now net.now sets.now last.0 }
    ensures { Found runs.now net.now table.new last.0 result }
{
    // Stays: three lengths in one function and none by a const parameter, so that the three take one place on the stack.
    if places_of(net) <= 6 {
        let mut live = [0; FOR_SIX];
        return search_live(table, &mut live, sets, net, runs, last);
    }
    if places_of(net) <= 16 {
        let mut live = [0; FOR_SIXTEEN];
        return search_live(table, &mut live, sets, net, runs, last);
    }
    let mut live = [0; FOR_ALL];
    search_live(table, &mut live, sets, net, runs, last)
}
