// The front of a sheet and a journey of it: off a sheet with the first steps of its free runs, and from the sheet's bytes.
ghost use Rattle.std.specs.Prelude.{◌≡◌, [], ◌*◌, ◌≤◌, length};
ghost use Rattle.sheet.specs.Lists.{filled};
ghost use Rattle.intervals.specs.FirstSteps.{Derived};
ghost use Rattle.journeys.specs.Computed.{journey_of};
ghost use Rattle.journeys.specs.Held.{Layable};
ghost use Rattle.journeys.specs.Inner.Offers.{Offers};
ghost use Rattle.journeys.specs.Answers.{front_answer, front_told, journey_answer, journey_told};
ghost use Rattle.journeys.specs.Calls.{cleared, front_end, front_on, front_call, journey_end, journey_on, journey_call};

use crate::counting::counting_of;
use crate::front::{Offered, count_front, list_front, nth_front};
use crate::walk::walk;
use crate::{FrontAnswer, JourneyAnswer};
use arrivals::rows::clear_from;
use arrivals::search;
use intervals::derive;
use sheet::held::HeldSheet;
use sheet::kinds::{KINDS, STORE};
use sheet::reader::read_into;
use sheet::refusal::{Refusal, Refused};
use sheet::{Place, Step};

// The counts of a front that was listed: of front costs, and of leading arrivals.
#[derive(Clone, Copy)]
pub struct Counts {
    pub costs: usize,
    pub arrivals: usize,
}

// What a host gets: the counts, or the refusal with its line and zeros.
impl From<Result<Counts, Refused>> for FrontAnswer {
    ghost from_gives = { λ r a. a ≡ front_told r };

    fn from(r: Result<Counts, Refused>) -> FrontAnswer {
        match r {
            Ok(f) => FrontAnswer {
                refusal: 0,
                line: 0,
                costs: f.costs as u64,
                arrivals: f.arrivals as u64,
            },
            Err(e) => FrontAnswer {
                refusal: e.refusal.number(),
                line: e.line,
                costs: 0,
                arrivals: 0,
            },
        }
    }
}

// The front off those of the first n rows of the table that are arrivals at place v and count: the front list filled; or 9, and the table cleared. The
// front is counted before anything is written into the list.
fn offer_front(
    table: &mut [u32],
    n: usize,
    v: Place,
    counting: &[u8],
    list: &mut [u32],
) -> Result<Counts, Refusal>
    requires { n * 5 ≤ length table.old }
    ensures { Offers v.0 counting.now n table.old list.old (front_end (front_answer result) table.new list.new) }
{
    let costs = count_front(table, n, v, counting);
    if list.len() / 4 < costs {
        clear_from(table, 0);
        return Err(Refusal::RoomCosts);
    }
    list_front(table, n, v, counting, list);
    Ok(Counts { costs, arrivals: n })
}

// The front of a sheet: the arrivals table and the front list filled, zeros to their ends; or 8 or 9.
pub fn front_of(
    sheet: &HeldSheet,
    since: &[u16],
    table: &mut [u32],
    list: &mut [u32],
) -> Result<Counts, Refusal>
    requires { Derived sheet.now since.now }
    ensures { front_end (front_answer result) table.new list.new
        ≡ front_on sheet.now table.old list.old }
{
    let n = search(sheet, since, table)?;
    let counting = counting_of(sheet.all, since);
    offer_front(table, n, sheet.goal(), &counting, list)
}

// The same, with the first steps worked out here.
fn front_stored(sheet: &HeldSheet, table: &mut [u32], list: &mut [u32]) -> Result<Counts, Refusal>
    ensures { front_end (front_answer result) table.new list.new
        ≡ front_on sheet.now table.old list.old }
{
    let mut since = [0u16; 16384];
    derive(sheet, &mut since);
    front_of(sheet, &since, table, list)
}

// The front of the sheet with these bytes, as a result.
fn front_read(sheet: &[u8], table: &mut [u32], list: &mut [u32]) -> Result<Counts, Refused>
    ensures { front_end (front_told result) table.new list.new ≡ front_call sheet.now table.old list.old }
{
    let mut lines = [0u32; KINDS];
    let mut all = [0u32; STORE];
    read_into(sheet, &mut lines, &mut all)?;
    Ok(front_stored(&HeldSheet::of(&lines, &all), table, list)?)
}

// The front of the sheet with these bytes: the arrivals table and the front list filled, zeros to their ends; or a refusal of the
// sheet, 8 or 9.
pub fn front(sheet: &[u8], table: &mut [u32], list: &mut [u32]) -> FrontAnswer
    ensures { front_end result table.new list.new ≡ front_call sheet.now table.old list.old }
{
    FrontAnswer::from(front_read(sheet, table, list))
}

// What a host gets: the cost and its arrival step, or the refusal with its line and zeros.
impl From<Result<Offered, Refused>> for JourneyAnswer {
    ghost from_gives = { λ r a. a ≡ journey_told r };

    fn from(r: Result<Offered, Refused>) -> JourneyAnswer {
        match r {
            Ok(o) => {
                let cost = o.cost;
                JourneyAnswer {
                    refusal: 0,
                    line: 0,
                    cost,
                    arrival: o.step.0,
                }
            }
            Err(e) => JourneyAnswer {
                refusal: e.refusal.number(),
                line: e.line,
                cost: [0; 3],
                arrival: 0,
            },
        }
    }
}

// A refusal once the sheet was searched: zeros in the arrivals table.
fn refuse_searched(refusal: Refusal, arrivals: &mut [u32]) -> Refusal
    ensures { (result ≡ refusal) × (arrivals.new ≡ cleared arrivals.old) }
{
    clear_from(arrivals, 0);
    refusal
}

// Writes the places of the journey of the front cost `cost`, which arrives at step `arrival`, for each step from 0 on, then zeros;
// the table is kept.
pub fn lay_path(
    sheet: &HeldSheet,
    since: &[u16],
    table: &mut [u32],
    n: usize,
    arrival: Step,
    cost: [u32; 3],
    path: &mut [u32],
)
    requires { Layable sheet.now since.now n table.old arrival.0 cost path.old }
    ensures { (table.new ≡ table.old)
        × (path.new ≡ filled (length path.old) (journey_of sheet.now cost)) }
{
    walk(sheet, since, table, n, arrival, cost, path);
    clear_from(path, arrival.0 as usize + 1);
}

// The journey with a number in the front of a sheet, from 0, by its cost and its arrival step: the path buffer holds one place for each
// step, then zeros, and the arrivals table is filled; or 8, 10 or 11.
pub fn journey_of(
    sheet: &HeldSheet,
    since: &[u16],
    number: u32,
    table: &mut [u32],
    path: &mut [u32],
) -> Result<Offered, Refusal>
    requires { Derived sheet.now since.now }
    ensures { journey_end (journey_answer result) table.new path.new
        ≡ journey_on sheet.now number table.old path.old }
{
    let rows = search(sheet, since, table)?;
    let counting = counting_of(sheet.all, since);
    let Some(o) = nth_front(table, rows, sheet.goal(), &counting, number) else {
        return Err(refuse_searched(Refusal::NotOnFront, table));
    };
    if path.len() <= o.step.0 as usize {
        return Err(refuse_searched(Refusal::RoomPath, table));
    }
    lay_path(sheet, since, table, rows, o.step, o.cost, path);
    Ok(o)
}

// The same, with the first steps worked out here.
fn journey_stored(
    sheet: &HeldSheet,
    number: u32,
    table: &mut [u32],
    path: &mut [u32],
) -> Result<Offered, Refusal>
    ensures { journey_end (journey_answer result) table.new path.new
        ≡ journey_on sheet.now number table.old path.old }
{
    let mut since = [0u16; 16384];
    derive(sheet, &mut since);
    journey_of(sheet, &since, number, table, path)
}

// The journey with a number in the front of the sheet with these bytes, as a result.
fn journey_read(
    sheet: &[u8],
    number: u32,
    table: &mut [u32],
    path: &mut [u32],
) -> Result<Offered, Refused>
    ensures { journey_end (journey_told result) table.new path.new
        ≡ journey_call sheet.now number table.old path.old }
{
    let mut lines = [0u32; KINDS];
    let mut all = [0u32; STORE];
    read_into(sheet, &mut lines, &mut all)?;
    Ok(journey_stored(&HeldSheet::of(&lines, &all), number, table, path)?)
}

// The journey with a number in the front of the sheet with these bytes, from 0: the path buffer holds one place for each step, then zeros, and the arrivals
// table is filled; or a refusal of the sheet, 8, 10 or 11.
pub fn journey(sheet: &[u8], number: u32, table: &mut [u32], path: &mut [u32]) -> JourneyAnswer
    ensures { journey_end result table.new path.new ≡ journey_call sheet.now number table.old path.old }
{
    JourneyAnswer::from(journey_read(sheet, number, table, path))
}
