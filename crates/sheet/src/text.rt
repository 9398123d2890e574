// What is written of a number, of a line and of the lines of a sheet.
ghost use Rattle.std.specs.Prelude.{◌≡◌, ◌+◌, ◌*◌, ◌≤◌, ◌<◌, length};
ghost use Rattle.std.proofs.lemmas.List.Edits.{sets};
ghost use Rattle.sheet.specs.Decimal.{digits_of};
ghost use Rattle.sheet.specs.Text.{number_text, printed, refusal_line};
ghost use Rattle.sheet.specs.Store.{kind_count, SomeStore};
ghost use Rattle.sheet.specs.Inner.{GroupFits, group_bytes, group_text, BytesAre, PutsSheet, SheetFits};
ghost use Rattle.sheet.specs.Laws.Puts.{Puts};

use crate::kinds::{DIGITS, KINDS, row_of};

// Writes the digits of n, at most `most` of them, from `at` on; the position after them.
// Stays: a recursion, since the last digit is found first and written last.
pub fn put_digits(out: &mut [u8], at: usize, n: u64, most: usize) -> usize
    requires { at + length (digits_of most n) ≤ length out.old }
    ensures { Puts (digits_of most n) out.old at out.new result }
{
    if most == 0 {
        return at;
    }
    if n < 10 {
        out[at] = 48 + n as u8;
        return at + 1;
    }
    let next = put_digits(out, at, n / 10, most - 1);
    out[next] = 48 + (n % 10) as u8;
    next + 1
}

// Writes a comma and the digits of n, at most `most` of them; the position after them.
fn put_number(out: &mut [u8], at: usize, n: u64, most: usize) -> usize
    requires { at + length (number_text most n) ≤ length out.old }
    ensures { Puts (number_text most n) out.old at out.new result }
{
    out[at] = 44;
    put_digits(out, at + 1, n, most)
}

// Writes the line with the letter and the numbers, of at most `most` digits each; the position after it.
pub fn put_line(out: &mut [u8], at: usize, letter: u8, numbers: &[u64], most: usize) -> usize
    requires { at + length (printed most letter numbers.now) ≤ length out.old }
    ensures { Puts (printed most letter numbers.now) out.old at out.new result }
{
    out[at] = letter;
    let mut next = at + 1;
    for n in numbers {
        next = put_number(out, next, *n, most);
    }
    out[next] = 10;
    next + 1
}

// Writes the line of a refusal to the front of the buffer; the count of its bytes.
pub fn put_refusal(out: &mut [u8], number: u32, line: u32) -> usize
    requires { 24 ≤ length out.old }
    ensures { Puts (refusal_line number line) out.old 0 out.new result }
{
    let told = [u64::from(number), u64::from(line)];
    put_line(out, 0, 82, &told, 10)
}

// Writes the numbers to the front of `to`.
pub fn widen(numbers: &[u32], to: &mut [u64])
    requires { length numbers.now ≤ length to.old }
    ensures { to.new ≡ sets to.old 0 numbers.now }
{
    // Stays: by position, since a loop over a `zip` with `iter_mut` tells a proof nothing of what it wrote.
    for (i, n) in numbers.iter().enumerate() {
        to[i] = u64::from(*n);
    }
}

// The count of the digits of n, at most `most` of them.
// Stays: a recursion, since `ilog10` would bring its table of powers into the archive, which may have no more constants (E4).
pub fn digits_in(n: u64, most: usize) -> usize
    ensures { (result ≡ length (digits_of most n)) × (result ≤ most) }
{
    if most == 0 {
        return 0;
    }
    if n < 10 {
        return 1;
    }
    digits_in(n / 10, most - 1) + 1
}

// Writes the first n lines of kind k in the array; the position after them.
fn put_group(out: &mut [u8], at: usize, k: usize, all: &[u32], n: usize) -> usize
    requires { (k < kind_count) × GroupFits k n all.now × (at + length (group_text k n all.now) ≤ length out.old) }
    ensures { Puts (group_text k n all.now) out.old at out.new result }
{
    let row = row_of(k);
    let w = row.width;
    let base = row.base;
    let mut numbers = [0u64; 8];
    let mut next = at;
    for i in 0..n {
        let from = base + i * w;
        let to = from + w;
        widen(&all[from..to], &mut numbers);
        next = put_line(out, next, row.letter, &numbers[..w], DIGITS);
    }
    next
}

// The count of bytes of the first n lines of kind k in the array.
fn group_bytes(k: usize, all: &[u32], n: usize) -> usize
    requires { (k < kind_count) × GroupFits k n all.now }
    ensures { (result ≡ length (group_text k n all.now)) × (result ≤ group_bytes) }
{
    let row = row_of(k);
    let end = row.base + n * row.width;
    let mut bytes = 2 * n;
    for number in &all[row.base..end] {
        bytes += 1 + digits_in(u64::from(*number), DIGITS);
    }
    bytes
}

// The count of bytes of the sheet in the array.
pub fn sheet_bytes(lines: &[u32], all: &[u32]) -> usize
    requires { SomeStore lines.now all.now }
    ensures { BytesAre lines.now all.now result }
{
    let mut bytes = 0;
    for k in 0..KINDS {
        let n = lines[k] as usize;
        bytes += group_bytes(k, all, n);
    }
    bytes
}

// Writes the lines of the sheet in the array to the front of the buffer.
pub fn put_sheet(lines: &[u32], all: &[u32], out: &mut [u8])
    requires { SheetFits lines.now all.now out.old }
    ensures { PutsSheet lines.now all.now out.old out.new }
{
    let mut next = 0;
    for k in 0..KINDS {
        let n = lines[k] as usize;
        next = put_group(out, next, k, all, n);
    }
}
