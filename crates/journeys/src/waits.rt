// The row from which a cart can stand at a place and step with a cost, by waiting since it arrived: of the rows of the safe interval at most one.
ghost use Rattle.std.specs.Prelude.{◌≤◌, ◌<◌};
ghost use Rattle.costs.specs.Priced.{Within};
ghost use Rattle.journeys.specs.Inner.Lookup.{standing, Sorted, RowOr};
ghost use Rattle.journeys.specs.Inner.Waits.{KeptFrom, KeptRow, Rowed, WaitingRow};

use crate::lookup::{Stand, row_of};
use arrivals::network::Here;
use costs::{at_most, less, multiple, wait_at};
use intervals::first_step;
use sheet::Step;
use sheet::held::HeldSheet;

// The row at here's place and this step that becomes h by waiting until here's step, of the first n.
fn kept_from(table: &[u32], n: usize, here: Here, h: [u32; 3], step: Step) -> Option<usize>
    requires { (Sorted n table.now) × (step.0 ≤ here.step.0) × (here.step.0 ≤ 60000) × (Within 60000 here.wait) }
    ensures { RowOr n (KeptFrom n table.now here h step.0) result }
{
    let waited = multiple(here.step.0 - step.0, here.wait);
    if !at_most(waited, h) {
        return None;
    }
    let cost = less(h, waited);
    let place = here.place;
    row_of(table, n, Stand { place, step, cost })
}

// The row at here's place, at a step of here's safe interval, that becomes h by waiting until here's step, of the first n.
fn kept_row(table: &[u32], n: usize, here: Here, h: [u32; 3]) -> Option<usize>
    requires { (Sorted n table.now) × (here.step.0 ≤ 60000) × (Within 60000 here.wait) }
    ensures { RowOr n (KeptRow n table.now here h) result }
{
    for s in (here.since.0..here.step.0 + 1).rev() {
        if let Some(k) = kept_from(table, n, here, h, Step(s)) {
            return Some(k);
        }
    }
    None
}

// The row from which a cart stands as a by waiting, of the first n, which are the leading arrivals of the sheet.
// The time grows with the steps of the safe interval and with the logarithm of n.
pub fn waiting_row(
    sheet: &HeldSheet,
    since: &[u16],
    table: &[u32],
    n: usize,
    a: Stand,
) -> Option<usize>
    requires { (Rowed sheet.now since.now n table.now) × (a.place.0 < 64) × (a.step.0 ≤ 255) }
    ensures { RowOr n (WaitingRow sheet.now n table.now (standing a)) result }
{
    let here = Here {
        place: a.place,
        step: a.step,
        since: first_step(since, a.place, a.step),
        wait: wait_at(sheet, a.place),
    };
    kept_row(table, n, here, a.cost)
}
