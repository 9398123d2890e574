// The tests of a line after the lines before it (document 01, "Who causes which refusal"; document 02, E5, E6 and E8): 3, 7, 4, 6, 15, 16, 5. The lines before
// stand in the array of all groups, so that a test may look at each of them.
ghost use Rattle.std.specs.Prelude.{◌≡◌, map, ◌+◌, ◌≤◌, ◌<◌, ltb, eqb, length, get_or, take, drop};
ghost use Rattle.sheet.specs.Lists.{pick, number};
ghost use Rattle.sheet.specs.Computed.{lexb};
ghost use Rattle.sheet.specs.Sheet.{beyond, outside, unpaired};
ghost use Rattle.sheet.specs.Refusals.{code};
ghost use Rattle.sheet.specs.Store.{kind_count};
ghost use Rattle.sheet.specs.Inner.{limit_at, pair_at, PairInside, line_at, behind_by, turn_by, misplaced_by, UnknownIs, late_by, RowIs, Kept, LacksIs, FaultIs};

use crate::kinds::{
    C_LINE, CORRIDOR, COST, COUNT, FIRST_CORRIDOR, KINDS, O_LINE, PLACE, Pair, Row, S_LINE, W_LINE,
    X_LINE,
};
use crate::refusal::Refusal;
use crate::seek::{Group, holds};

// Test 3, by the kind: no S line first, a second S, or a line after one of a later kind.
fn is_behind(lines: &[u32], kind: usize) -> bool
    requires { (length lines.now ≡ kind_count) × (kind < kind_count) }
    ensures { result ≡ behind_by lines.now kind }
{
    if kind == S_LINE {
        return lines[S_LINE] != 0;
    }
    if lines[S_LINE] == 0 {
        return true;
    }
    for later in kind + 1..KINDS {
        if lines[later] != 0 {
            return true;
        }
    }
    false
}

// Whether a W line is still to come: there are fewer of them than places.
fn is_waiting(lines: &[u32], all: &[u32]) -> bool
    requires { (length lines.now ≡ kind_count) × (1 ≤ length all.now) }
    ensures { result ≡ ltb (number lines.now 1) (number all.now 0) }
{
    lines[W_LINE] < all[0]
}

// Test 3, by the turn: a W line that is not the next place's, or any other line while one is still to come.
fn is_out_of_turn(lines: &[u32], all: &[u32], kind: usize, values: [u32; 8]) -> bool
    requires { (length lines.now ≡ kind_count) × (1 ≤ length all.now) }
    ensures { result ≡ turn_by lines.now all.now kind values }
{
    let to_come = is_waiting(lines, all);
    if kind == W_LINE {
        return !(to_come & (values[0] == lines[W_LINE]));
    }
    to_come
}

// Test 3.
fn is_misplaced(lines: &[u32], all: &[u32], kind: usize, values: [u32; 8]) -> bool
    requires { (length lines.now ≡ kind_count) × (1 ≤ length all.now) × (kind < kind_count) }
    ensures { result ≡ misplaced_by lines.now all.now kind values }
{
    if is_behind(lines, kind) {
        return true;
    }
    is_out_of_turn(lines, all, kind, values)
}

// Whether n is outside the limit, on a sheet of `places` places.
// Stays: tests and no `match`, as in `row_of`.
fn is_beyond(places: u32, limit: u8, n: u32) -> bool
    ensures { result ≡ beyond places (limit_at limit) n }
{
    if limit == PLACE {
        return places <= n;
    }
    if limit == COST {
        return 60000 < n;
    }
    if limit == COUNT {
        return (n < 1) | (64 < n);
    }
    (limit as u32) < n
}

// Test 4: one of the first w numbers is outside its limit.
fn is_outside(places: u32, limits: [u8; 8], w: usize, values: [u32; 8]) -> bool
    requires { w ≤ 8 }
    ensures { result ≡ outside places (map limit_at (take w limits)) (take w values) }
{
    // Stays: a loop, since with `any` waits and corridors are read slower by a sixth.
    for (limit, n) in limits[..w].iter().zip(&values[..w]) {
        if is_beyond(places, *limit, *n) {
            return true;
        }
    }
    false
}

// The places of the sheet: the first number of the S line, which is this line or stands first in the array.
fn places_with(all: &[u32], kind: usize, values: [u32; 8]) -> u32
    requires { 1 ≤ length all.now }
    ensures { result ≡ pick (eqb kind 0) (get_or values 0 0) (get_or all.now 0 0) }
{
    if kind == S_LINE {
        return values[0];
    }
    all[0]
}

// Test 6: a corridor or a closure from a place to itself, or last below first.
fn is_unpaired(pair: Pair, values: [u32; 8]) -> bool
    requires { PairInside 8 (pair_at pair) }
    ensures { result ≡ unpaired (pair_at pair) values }
{
    match pair {
        Pair::Alone => false,
        Pair::Different(one, other) => values[one] == values[other],
        Pair::Ordered(one, other) => values[other] < values[one],
    }
}

// Test 15: a closure that names no corridor in the array.
fn is_unknown(lines: &[u32], all: &[u32], kind: usize, values: [u32; 8]) -> bool
    requires { (kind < kind_count) × (Kept lines.now all.now) }
    ensures { UnknownIs lines.now all.now kind values result }
{
    if kind != X_LINE {
        return false;
    }
    let corridors = Group {
        base: FIRST_CORRIDOR,
        width: CORRIDOR,
        count: lines[C_LINE] as usize,
        key: 2,
    };
    !holds(all, corridors, values)
}

// Test 16: an occupancy that begins after the last step, the second number of the S line.
fn is_late(all: &[u32], kind: usize, values: [u32; 8]) -> bool
    requires { 2 ≤ length all.now }
    ensures { result ≡ late_by all.now kind values }
{
    (kind == O_LINE) & (all[1] < values[1])
}

// Whether the first `key` numbers, at most three, of the row from `at` on stand before those of a line.
// Stays: each number is named; for a loop over them the line's numbers would be written to memory, and reading would be slower.
fn is_key_before(all: &[u32], at: usize, key: usize, values: [u32; 8]) -> bool
    requires { (key ≤ 3) × (at + key ≤ length all.now) }
    ensures { result ≡ lexb (take key (drop at all.now)) (take key values) }
{
    if key == 0 {
        return false;
    }
    let a = all[at];
    if a != values[0] {
        return a < values[0];
    }
    if key == 1 {
        return false;
    }
    let b = all[at + 1];
    if b != values[1] {
        return b < values[1];
    }
    if key == 2 {
        return false;
    }
    all[at + 2] < values[2]
}

// The fault of a line of the row's kind after the lines in the array: the refusal of the first test that it fails. Test 5, not above the last of the n
// lines of its kind, is made here: the compiler takes what stands behind six tests for rare, would call it, and would write row and numbers to memory for
// the call.
pub fn fault_of(
    lines: &[u32],
    all: &[u32],
    kind: usize,
    row: Row,
    values: [u32; 8],
) -> Result<(), Refusal>
    requires { (kind < kind_count) × (Kept lines.now all.now) × (RowIs kind row) }
    ensures { FaultIs lines.now all.now (line_at kind values) (code result) }
{
    let n = lines[kind];
    let limits = row.limits;
    if is_misplaced(lines, all, kind, values) {
        return Err(Refusal::OutOfOrder);
    }
    if row.most <= n {
        return Err(Refusal::TooManyLines);
    }
    if is_outside(places_with(all, kind, values), limits, row.width, values) {
        return Err(Refusal::OutOfRange);
    }
    if is_unpaired(row.pair, values) {
        return Err(Refusal::Reversed);
    }
    if is_unknown(lines, all, kind, values) {
        return Err(Refusal::NoCorridor);
    }
    if is_late(all, kind, values) {
        return Err(Refusal::Late);
    }
    if n == 0 {
        return Ok(());
    }
    let last = row.base + (n as usize - 1) * row.width;
    if !is_key_before(all, last, row.key, values) {
        return Err(Refusal::NotAscending);
    }
    Ok(())
}

// Whether something is missing where the input ends after the lines in the array: the S line, or a W line.
pub fn lacks(lines: &[u32], all: &[u32]) -> bool
    requires { (length lines.now ≡ kind_count) × (1 ≤ length all.now) }
    ensures { LacksIs lines.now all.now result }
{
    if lines[S_LINE] == 0 {
        return true;
    }
    is_waiting(lines, all)
}
