// The page of a month for the bytes of its lines (document 02, E3).

#![tactic(auto)]

ghost use Rattle.std.specs.Prelude.{◌≡◌, ◌+◌, ◌≤◌, ◌<◌, length};
ghost use Rattle.sheet.specs.Laws.Puts.{Puts};
ghost use Rattle.month.specs.Month.{page, page_room, held};
ghost use Rattle.month.specs.Inner.{Gathered, PutsFigure, PutsFigures};

use crate::lines::take_lines;
use crate::sums::{Sums, mean_of};
use sheet::printed::Printed;
use sheet::refusal::Refusal;
use sheet::text::{put_line, put_refusal};

pub mod sums; // sums.rt: total, least and greatest of each figure, and the mean
pub mod lines; // lines.rt: from bytes to the sums of a month

// A page of a month: none is longer than 192 bytes.
pub type MonthPage = Printed<192>;

// Writes the line of the figure at position i, of n costs with these sums; the position after it.
fn put_figure(out: &mut [u8], at: usize, i: usize, n: u32, sums: &Sums) -> usize
    requires { (i < 3) × (1 ≤ n) × Gathered n sums.now × (at + 62 ≤ length out.old) }
    ensures { PutsFigure n sums.now i out.old at out.new result }
{
    let total = sums.totals[i];
    let numbers = [
        i as u64 + 1,
        total,
        sums.leasts[i] as u64,
        sums.greatests[i] as u64,
        mean_of(total, n),
    ];
    put_line(out, at, 65, &numbers, 11)
}

// Writes the lines of the three figures of n costs with these sums; the count of their bytes.
fn put_figures(out: &mut [u8], n: u32, sums: &Sums) -> usize
    requires { (1 ≤ n) × Gathered n sums.now × (length out.old ≡ page_room) }
    ensures { PutsFigures n sums.now out.old out.new result }
{
    let mut next = 0;
    for i in 0..3 {
        next = put_figure(out, next, i, n, sums);
    }
    next
}

// Writes the page for the bytes of a month; the count of its bytes.
fn put_page(src: &[u8], out: &mut [u8]) -> usize
    requires { length out.old ≡ page_room }
    ensures { Puts (page src.now) out.old 0 out.new result }
{
    let mut sums = Sums::new();
    match take_lines(src, &mut sums) {
        Err(refused) => put_refusal(out, refused.refusal.number(), refused.line),
        Ok(0) => put_refusal(out, Refusal::MonthLines.number(), 0),
        Ok(n) => put_figures(out, n, &sums),
    }
}

// The page for the bytes of a month.
pub fn page_of(src: &[u8]) -> MonthPage
    ensures { result ≡ held src.now }
{
    let mut bytes = [0u8; 192];
    let count = put_page(src, &mut bytes);
    MonthPage { bytes, count }
}
