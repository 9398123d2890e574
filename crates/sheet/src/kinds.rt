// The kinds of lines, a number for each in the order of kinds. One row for each, as specs/Kinds.antt has it; and the lengths of groups of lines. A row
// is told by tests of the kind's number, since a constant table is made anew wherever it is named.
ghost use Rattle.std.specs.Prelude.{◌<◌};
ghost use Rattle.sheet.specs.Store.{kind_count};
ghost use Rattle.sheet.specs.Inner.{RowIs};

// The number of each kind, its `order` in specs/Kinds.antt, and how many kinds there are.
// Stays: numbers, since counts of lines and groups are indexed by them, and the host is handed the counts in their order.
pub const S_LINE: usize = 0;

pub const W_LINE: usize = 1;

pub const C_LINE: usize = 2;

pub const X_LINE: usize = 3;

pub const O_LINE: usize = 4;

pub const KINDS: usize = 5;

// The numbers of a line of each kind, and of the most lines of it.
pub const HEAD: usize = 5;

pub const WAIT: usize = 4;

pub const CORRIDOR: usize = 5;

pub const CLOSURE: usize = 3;

pub const OCCUPANCY: usize = 3;

pub const WAITS: usize = 64 * WAIT;

pub const CORRIDORS: usize = 256 * CORRIDOR;

pub const CLOSURES: usize = 256 * CLOSURE;

pub const OCCUPANCIES: usize = 256 * OCCUPANCY;

// Where the groups of W, C, X and O lines begin in the array of all groups, and its length.
pub const FIRST_WAIT: usize = HEAD;

pub const FIRST_CORRIDOR: usize = FIRST_WAIT + WAITS;

pub const FIRST_CLOSURE: usize = FIRST_CORRIDOR + CORRIDORS;

pub const FIRST_OCCUPANCY: usize = FIRST_CLOSURE + CLOSURES;

pub const STORE: usize = FIRST_OCCUPANCY + OCCUPANCIES;

// The most bytes of a sheet: `most_bytes` of specs/Sheet.antt.
pub const MOST_BYTES: usize = 16384;

// The most digits of a number.
pub const DIGITS: usize = 5;

// The limits of numbers: a place of the sheet; a cost, 0 to 60,000; the count of places, 1 to 64; any other by its highest, from 0 on. They fit into a
// byte each, so that a row's limits are one number and no constant of the archive.
// Stays: bytes, since a `match` on an enum of five limits brings tables of 100 bytes into the archive, which may have no more constants (E4).
pub const PLACE: u8 = 0;

pub const COST: u8 = 60;

pub const COUNT: u8 = 64;

pub const UNLOAD: u8 = 99;

pub const STEP: u8 = 255;

// What two numbers of a line must be, by their positions: nothing; different; the first at most the second.
#[derive(Clone, Copy, PartialEq, Eq)]
pub enum Pair {
    Alone,
    Different(usize, usize),
    Ordered(usize, usize),
}

// A kind of line: its letter, the count of its numbers and their limits, the most lines, what two of the numbers must be, by how many first numbers its
// lines ascend, and where its group begins in the array of all groups.
#[derive(Clone, Copy)]
pub struct Row {
    pub letter: u8,
    pub width: usize,
    pub limits: [u8; 8],
    pub most: u32,
    pub pair: Pair,
    pub key: usize,
    pub base: usize,
}

// The row of S lines.
fn head_row() -> Row
    ensures { RowIs 0 result }
{
    Row {
        letter: b'S',
        width: HEAD,
        limits: [COUNT, STEP, PLACE, PLACE, UNLOAD, 0, 0, 0],
        most: 1,
        pair: Pair::Alone,
        key: 0,
        base: 0,
    }
}

// The row of W lines.
fn wait_row() -> Row
    ensures { RowIs 1 result }
{
    Row {
        letter: b'W',
        width: WAIT,
        limits: [PLACE, COST, COST, COST, 0, 0, 0, 0],
        most: 64,
        pair: Pair::Alone,
        key: 1,
        base: FIRST_WAIT,
    }
}

// The row of C lines.
fn corridor_row() -> Row
    ensures { RowIs 2 result }
{
    Row {
        letter: b'C',
        width: CORRIDOR,
        limits: [PLACE, PLACE, COST, COST, COST, 0, 0, 0],
        most: 256,
        pair: Pair::Different(0, 1),
        key: 2,
        base: FIRST_CORRIDOR,
    }
}

// The row of X lines.
fn closure_row() -> Row
    ensures { RowIs 3 result }
{
    Row {
        letter: b'X',
        width: CLOSURE,
        limits: [PLACE, PLACE, STEP, 0, 0, 0, 0, 0],
        most: 256,
        pair: Pair::Different(0, 1),
        key: 3,
        base: FIRST_CLOSURE,
    }
}

// The row of O lines.
fn occupancy_row() -> Row
    ensures { RowIs 4 result }
{
    Row {
        letter: b'O',
        width: OCCUPANCY,
        limits: [PLACE, STEP, STEP, 0, 0, 0, 0, 0],
        most: 256,
        pair: Pair::Ordered(1, 2),
        key: 3,
        base: FIRST_OCCUPANCY,
    }
}

// The row of the kind k.
// Stays: tests and no `match`, with which, here and in `is_beyond`, judging takes a twentieth more instructions (docs/DESIGN-PASS.md).
pub fn row_of(k: usize) -> Row
    requires { k < kind_count }
    ensures { RowIs k result }
{
    if k == S_LINE {
        return head_row();
    }
    if k == W_LINE {
        return wait_row();
    }
    if k == C_LINE {
        return corridor_row();
    }
    if k == X_LINE {
        return closure_row();
    }
    occupancy_row()
}
