// Costs: three figures, added and compared place by place as one value (document 01, "Lawful journeys"); the cost of a wait, and the corridors.

#![tactic(auto)]

ghost use Rattle.std.specs.Prelude.{◌≡◌, [], ◌+◌, ◌-◌, ◌≤◌, ◌<◌, length, get_or};
ghost use Rattle.sheet.specs.Lists.{number, numbers_from};
ghost use Rattle.sheet.specs.Computed.{lexb};
ghost use Rattle.sheet.specs.Laws.Decided.{Decided};
ghost use Rattle.costs.specs.Costs.{figures, add, times, AtMost};
ghost use Rattle.costs.specs.Moves.{Closed};
ghost use Rattle.costs.specs.Priced.{Within, CorridorIs};
ghost use Rattle.costs.specs.Computed.{at_most_b, wait_at};

use sheet::held::HeldSheet;
use sheet::kinds::{CLOSURE, CORRIDOR, FIRST_CLOSURE, FIRST_CORRIDOR, FIRST_WAIT, WAIT, X_LINE};
use sheet::seek::{Group, holds};
use sheet::{Place, Step};
use std::array::from_fn;

// A cost: its three figures.
pub type Cost = [u32; 3];

// The sum, figure by figure.
pub fn sum(a: Cost, b: Cost) -> Cost
    requires { (Within 1000000000 a) × (Within 1000000000 b) }
    ensures { result ≡ add a b }
{
    from_fn(|j| a[j] + b[j])
}

// n times w, figure by figure.
pub fn multiple(n: u32, w: Cost) -> Cost
    requires { (n ≤ 60000) × (Within 60000 w) }
    ensures { result ≡ times n w }
{
    from_fn(|k| n * w[k])
}

// What is left of h after c is taken off.
pub fn less(h: Cost, c: Cost) -> Cost
    requires { AtMost c h }
    ensures { (length result ≡ figures) × (add result c ≡ h) }
{
    from_fn(|f| h[f] - c[f])
}

// 2^32 or more where x is greater than y, and less otherwise.
// Stays: arithmetic and no `all` of the figures, since an early exit in a comparison is slow where it is not predictable (docs/PROVING.md).
fn excess(x: u32, y: u32) -> u64
    ensures { result ≡ x + (4294967295 - y) }
{
    x as u64 + (4294967295 - y as u64)
}

// Whether no figure of a is greater than b's.
pub fn at_most(a: Cost, b: Cost) -> bool
    ensures { result ≡ at_most_b a b }
{
    let mut over = 0;
    for i in 0..3 {
        over = over | excess(a[i], b[i]);
    }
    over < 4294967296
}

// Whether a stands before b: by first figure, then second, then third.
// Stays: the compiler makes this loop branch-free, 2.5 ns a call; `a < b` of arrays branches at each figure, 6 to 10 ns.
pub fn before(a: Cost, b: Cost) -> bool
    ensures { result ≡ lexb a b }
{
    for i in 0..3 {
        if a[i] < b[i] {
            return true;
        }
        if b[i] < a[i] {
            return false;
        }
    }
    false
}

// The cost whose figures stand among the numbers from `at` on.
pub fn cost_from(numbers: &[u32], at: usize) -> Cost
    requires { at + 3 ≤ length numbers.now }
    ensures { result ≡ numbers_from figures at numbers.now }
{
    [numbers[at], numbers[at + 1], numbers[at + 2]]
}

// The cost of waiting one step at v.
pub fn wait_at(sheet: &HeldSheet, v: Place) -> Cost
    requires { v.0 < 64 }
    ensures { result ≡ wait_at sheet.now v }
{
    cost_from(sheet.all, FIRST_WAIT + v.0 as usize * WAIT + 1)
}

// Whether the way from u to v is closed for a cart that departs at step t.
fn is_closed(sheet: &HeldSheet, u: Place, v: Place, t: Step) -> bool
    ensures { Decided (Closed sheet.now u.0 v.0 t.0) result }
{
    let closures = Group {
        base: FIRST_CLOSURE,
        width: CLOSURE,
        count: sheet.lines[X_LINE] as usize,
        key: CLOSURE,
    };
    holds(sheet.all, closures, [u.0, v.0, t.0, 0, 0, 0, 0, 0])
}

// Place q of corridor k: 0 is where it leads from, 1 where it leads to.
pub fn end_of(sheet: &HeldSheet, k: usize, q: usize) -> Place
    requires { (k < length sheet.now.corridors) × (q < 2) }
    ensures { result.0 ≡ number (get_or sheet.now.corridors k []) q }
{
    let all = sheet.all;
    Place(all[FIRST_CORRIDOR + k * CORRIDOR + q])
}

// A corridor: whether a cart can depart by it, the place it leads from, the place it leads to, and its cost.
// Stays: no Option, since `CorridorIs` promises the ends and the cost of a closed corridor too.
#[derive(Drop)]
pub struct Corridor {
    pub open: bool,
    pub from: Place,
    pub to: Place,
    pub cost: Cost,
}

// Corridor k, for a cart that departs at step t.
pub fn corridor_at(sheet: &HeldSheet, k: usize, t: Step) -> Corridor
    requires { k < length sheet.now.corridors }
    ensures { CorridorIs sheet.now k t.0 result }
{
    let all = sheet.all;
    let at = FIRST_CORRIDOR + k * CORRIDOR;
    let from = all[at];
    let to = all[at + 1];
    Corridor {
        open: !is_closed(sheet, Place(from), Place(to), t),
        from: Place(from),
        to: Place(to),
        cost: cost_from(all, at + 2),
    }
}
