// The lines of a month: each is parsed (2), held to its range (4) and counted (14), and its cost added to the sums (document 02, E3).
ghost use Rattle.month.specs.Inner.{Gathered, TakenIs, NextIs, ReadIs};

use crate::sums::{MOST_FIGURE, Sums};
use costs::{at_most, cost_from};
use sheet::line_reader::end_at;
use sheet::lines::line_in;
use sheet::refusal::{Refusal, Refused};

// The most lines of a month.
const MOST_LINES: u32 = 4096;

// The bytes of a month that decide its page: 4,097 lines of at most 29 bytes.
pub const DECIDING: usize = 118813;

// Adds the cost of the line l, without its line feed, to the sums of the n lines before it, or refuses the line.
fn take_line(l: &[u8], n: u32, sums: &mut Sums) -> Result<(), Refusal>
    requires { Gathered n sums.old }
    ensures { TakenIs l.now n sums.old sums.new result }
{
    let Some(parsed) = line_in(l, &[77], &[3], 8) else {
        return Err(Refusal::Malformed);
    };
    let c = cost_from(&parsed.values, 0);
    if !at_most(c, [MOST_FIGURE; 3]) {
        return Err(Refusal::OutOfRange);
    }
    if n == MOST_LINES {
        return Err(Refusal::MonthLines);
    }
    sums.add(c);
    Ok(())
}

// Takes the line of src from `at` on, after n lines, or refuses it; the position after its line feed, or nothing is left.
fn take_next(src: &[u8], at: usize, n: u32, sums: &mut Sums) -> Result<Option<usize>, Refusal>
    requires { Gathered n sums.old }
    ensures { NextIs src.now at n sums.old sums.new result }
{
    let Some(end) = end_at(src, at)? else {
        return Ok(None);
    };
    take_line(&src[at..end], n, sums)?;
    Ok(Some(end + 1))
}

// Takes the lines of src, one after another, until none is left or one is refused; the count of the lines.
pub fn take_lines(src: &[u8], sums: &mut Sums) -> Result<u32, Refused>
    requires { Gathered 0 sums.old }
    ensures { ReadIs src.now sums.new result }
{
    let mut at = 0;
    let mut n: u32 = 0;
    loop {
        match take_next(src, at, n, sums) {
            Ok(Some(next)) => at = next,
            Ok(None) => return Ok(n),
            Err(refusal) => return Err(Refused {
                refusal,
                line: n + 1,
            }),
        }
        n += 1;
    }
}
