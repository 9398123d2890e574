// Two sheets' fronts compared: demand 3, by two calls of the front and the lists that they return.
ghost use Rattle.std.specs.Prelude.{◌≡◌, [], ◌+◌, ◌*◌, ◌≤◌, length};
ghost use Rattle.sheet.specs.Laws.Decided.{Decided};
ghost use Rattle.journeys.specs.Calls.{front_end};
ghost use Rattle.journeys.specs.Demand3.{ComparedIs};
ghost use Rattle.journeys.specs.Inner.{SameRows, BothSame};

use crate::FrontAnswer;
use crate::calls::front;

// The answers of two calls of the front, and whether neither is refused and the lists of costs are equal.
// Stays: `same` is an answer of its own beside both answers, and no Option of them.
#[derive(Drop)]
pub struct Compared {
    pub first: FrontAnswer,
    pub second: FrontAnswer,
    pub same: bool,
}

// Whether the first n costs of two front lists are equal.
fn same_costs(a: &[u32], b: &[u32], n: usize) -> bool
    requires { (n * 4 ≤ length a.now) × (n * 4 ≤ length b.now) }
    ensures { Decided (SameRows n a.now b.now) result }
{
    for k in 0..n {
        if a[k * 4..k * 4 + 3] != b[k * 4..k * 4 + 3] {
            return false;
        }
    }
    true
}

// Whether neither call was refused and the lists of costs that they returned are equal: the counts, and all figures of each cost.
fn both_same(first: FrontAnswer, a: &[u32], second: FrontAnswer, b: &[u32]) -> bool
    requires { (first.refusal ≡ 0 → first.costs * 4 ≤ length a.now) × (second.refusal ≡ 0 → second.costs * 4 ≤ length b.now) }
    ensures { Decided (BothSame (front_end first [] a.now) (front_end second [] b.now)) result }
{
    if first.refusal != 0 {
        return false;
    }
    if second.refusal != 0 {
        return false;
    }
    if first.costs != second.costs {
        return false;
    }
    same_costs(a, b, first.costs as usize)
}

// Two calls of the front, each with its own arrays, and the comparison of the lists of costs as they are returned. Where neither is refused, the
// lists are equal exactly when the two sheets can meet the same allowances.
pub fn compare_fronts(
    sheet_a: &[u8],
    arrivals_a: &mut [u32],
    list_a: &mut [u32],
    sheet_b: &[u8],
    arrivals_b: &mut [u32],
    list_b: &mut [u32],
) -> Compared
    ensures { ComparedIs sheet_a.now arrivals_a.old list_a.old
        sheet_b.now arrivals_b.old list_b.old
        (front_end result.first arrivals_a.new list_a.new)
        (front_end result.second arrivals_b.new list_b.new) result.same }
{
    let first = front(sheet_a, arrivals_a, list_a);
    let second = front(sheet_b, arrivals_b, list_b);
    let same = both_same(first, list_a, second, list_b);
    Compared {
        first,
        second,
        same,
    }
}
