// The lines of each front cost: its row of the front list, and the places of its journey.
ghost use Rattle.std.specs.Prelude.{◌≡◌, ◌+◌, ◌≤◌, length};
ghost use Rattle.sheet.specs.Text.{printed, most_printed};
ghost use Rattle.sheet.specs.Laws.Puts.{Puts};
ghost use Rattle.page.specs.Page.{journey_lines, offer_lines};
ghost use Rattle.page.specs.Inner.{cost_in, Printable, Offered};

use costs::cost_from;
use journeys::calls::lay_path;
use sheet::Step;
use sheet::held::HeldSheet;
use sheet::text::{put_line, widen};

// Writes the line with the letter and the numbers; the position after it.
// Stays: an array of the most numbers of a line, since `put_line` takes them in 64 bits and there is no heap.
fn put_row(out: &mut [u8], at: usize, letter: u8, numbers: &[u32]) -> usize
    requires { (length numbers.now ≤ 256) × (at + length (printed most_printed letter numbers.now) ≤ length out.old) }
    ensures { Puts (printed most_printed letter numbers.now) out.old at out.new result }
{
    let mut wide = [0u64; 256];
    widen(numbers, &mut wide);
    let n = numbers.len();
    put_line(out, at, letter, &wide[..n], 10)
}

// Writes the two lines of the front cost whose row this is; the position after them. The table is kept.
fn put_journey(
    sheet: &HeldSheet,
    since: &[u16],
    table: &mut [u32],
    n: usize,
    row: &[u32],
    out: &mut [u8],
    at: usize,
) -> usize
    requires { Printable sheet.now since.now table.old n row.now out.old at }
    ensures { (table.new ≡ table.old)
        × (Puts (journey_lines sheet.now (cost_in row.now)) out.old at out.new result) }
{
    let mut path = [0u32; 256];
    let arrival = Step(row[3]);
    let cost = cost_from(row, 0);
    lay_path(sheet, since, table, n, arrival, cost, &mut path);
    let next = put_row(out, at, 74, row);
    let e = arrival.0 as usize + 1;
    put_row(out, next, 80, &path[..e])
}

// Writes the lines of every row of the front list of a sheet; the position after them. The table is kept.
pub fn put_journeys(
    sheet: &HeldSheet,
    since: &[u16],
    table: &mut [u32],
    n: usize,
    list: &[u32],
    out: &mut [u8],
    at: usize,
) -> usize
    requires { Offered sheet.now since.now table.old n list.now out.old at }
    ensures { (table.new ≡ table.old)
        × (Puts (offer_lines sheet.now) out.old at out.new result) }
{
    let mut next = at;
    let (rows, _) = list.as_chunks::<4>();
    for row in rows {
        next = put_journey(sheet, since, table, n, row, out, next);
    }
    next
}
