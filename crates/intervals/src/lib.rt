// Occupied and free places, and the safe intervals of a sheet as a table that is looked up in constant time (document 01, "Safe intervals and
// leading arrivals").

#![tactic(auto)]

ghost use Rattle.std.specs.Prelude.{◌≡◌, ◌+◌, ◌*◌, ◌≤◌, ◌<◌, ◌/◌, length};
ghost use Rattle.sheet.specs.Lists.{number};
ghost use Rattle.sheet.specs.Kinds.{width, kind_o};
ghost use Rattle.intervals.specs.Inner.{Blank, MarkedSteps, Marked, FilledRun};
ghost use Rattle.intervals.specs.FirstSteps.{Derived, SinceTable, ValidGroup};

use sheet::held::HeldSheet;
use sheet::kinds::{O_LINE, OCCUPANCY};
use sheet::{Place, Step};

pub mod stays; // stays.rt: from which steps a place stays free for a while
pub mod sets; // sets.rt: sets of places, and the places of which a free run begins

// Marks with 256 the entries of place v from the first step to the last.
fn mark(since: &mut [u16], v: Place, first: Step, last: Step)
    requires { (length since.old ≡ 16384) × (v.0 < 64) × (last.0 ≤ 255) }
    ensures { MarkedSteps v.0 first.0 last.0 since.old since.new }
{
    let row = v.0 as usize * 256;
    for t in first.0..last.0 + 1 {
        since[row + t as usize] = 256;
    }
}

// Marks with 256 the entries of the steps that are occupied, in a table of zeros.
fn mark_all(occupancies: &[u32], since: &mut [u16])
    requires { (ValidGroup occupancies.now) × (length since.old ≡ 16384) × (Blank since.old) }
    ensures { Marked occupancies.now (length occupancies.now / width kind_o) since.new }
{
    let (lines, _) = occupancies.as_chunks::<OCCUPANCY>();
    for [place, first, last] in lines {
        mark(since, Place(*place), Step(*first), Step(*last));
    }
}

// Writes the first step of the free run of a place that begins after a marked step into the run's entries. After a step that is not marked, as the
// last of a line that ends before it begins may be, it writes nothing.
fn fill_run(since: &mut [u16], place: Place, last: Step)
    requires { (length since.old ≡ 16384) × (place.0 < 64) × (last.0 ≤ 255) }
    ensures { FilledRun place.0 last.0 since.old since.new }
{
    let row = place.0 as usize * 256;
    let marked = last.0 as usize;
    let first = marked + 1;
    if since[row + marked] != 256 {
        return;
    }
    for t in first..256 {
        if since[row + t] == 256 {
            return;
        }
        since[row + t] = first as u16;
    }
}

// Writes the first steps of the free runs that begin after an occupancy, into the table of marks.
fn turn(occupancies: &[u32], since: &mut [u16])
    requires { (ValidGroup occupancies.now) × (length since.old ≡ 16384)
        × (Marked occupancies.now (length occupancies.now / width kind_o) since.old) }
    ensures { SinceTable occupancies.now since.new }
{
    let (lines, _) = occupancies.as_chunks::<OCCUPANCY>();
    for [place, _, last] in lines {
        fill_run(since, Place(*place), Step(*last));
    }
}

// Fills the table of first steps: the entry of place v and step t, at v * 256 + t, is the first step of the free run of v that holds t, and 256
// where v is occupied at t. The time grows with the steps that the occupancies cover, with the free runs that begin after them, and with the
// 16,384 entries.
pub fn fill_since(occupancies: &[u32], since: &mut [u16; 16384])
    requires { ValidGroup occupancies.now }
    ensures { SinceTable occupancies.now since.new }
{
    since.fill(0);
    mark_all(occupancies, since);
    turn(occupancies, since);
}

// The first steps of the free runs of a sheet: what is derived of it once, for its front and its journeys.
pub fn derive(sheet: &HeldSheet, since: &mut [u16; 16384])
    ensures { Derived sheet.now since.new }
{
    fill_since(sheet.group(O_LINE), since);
}

// The entry of place v and step t in the table of first steps.
pub fn first_step(since: &[u16], v: Place, t: Step) -> Step
    requires { (v.0 < 64) × (t.0 ≤ 255) × (16384 ≤ length since.now) }
    ensures { result.0 ≡ number since.now (v.0 * 256 + t.0) }
{
    Step(u32::from(since[v.0 as usize * 256 + t.0 as usize]))
}
