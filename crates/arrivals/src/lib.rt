// The leading arrivals of a sheet (document 01, "Safe intervals and leading arrivals").

#![tactic(auto)]

ghost use Rattle.std.specs.Prelude.{◌≡◌, IsOkUnless};
ghost use Rattle.intervals.specs.FirstSteps.{Derived};
ghost use Rattle.arrivals.specs.Search.{search_on, search_end};

use crate::fill::fill;
use crate::lay::lay;
use crate::network::NETWORK;
use crate::watch::{SETS, watch};
use sheet::held::HeldSheet;
use sheet::refusal::Refusal;

pub mod rows; // rows.rt: the rows of the lent table
pub mod network; // network.rt: what is searched, read by name
pub mod lay; // lay.rt: the network of a sheet
pub mod index; // index.rt: where the rows of a place and step stand
pub mod offers; // offers.rt: costs offered to the rows of a place and step
pub mod expand; // expand.rt: every cost of entering a place at a step
pub mod select; // select.rt: the rows of a place and step, one after another
pub mod watch; // watch.rt: which places are looked at at a step
pub mod live; // live.rt: rows that are looked at no more
pub mod lists; // lists.rt: the live costs of each place
pub mod by_lists; // by_lists.rt: the search by lists
pub mod fill; // fill.rt: all rows, place by place and step by step

// Searches the leading arrivals of a sheet, with the first steps of its free runs beside it, into the lent table: a row of place, step and
// three figures for each, ascending by step, place, cost, then zeros: their number. Or zeros alone and 8, where there are more of them than room.
pub fn search(sheet: &HeldSheet, since: &[u16], table: &mut [u32]) -> Result<usize, Refusal>
    requires { Derived sheet.now since.now }
    ensures end { search_end result table.new ≡ search_on sheet.now table.old }
    ensures room { IsOkUnless result Refusal.RoomArrivals }
{
    let mut net = [0; NETWORK];
    lay(sheet, &mut net);
    let mut sets = [0u64; SETS];
    watch(sheet, &net, &mut sets);
    fill(table, &sets, &net, since, sheet.last_step())
}
