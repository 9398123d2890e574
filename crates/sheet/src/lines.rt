// What the bytes of a field, of fields and of a line stand for, of any kinds of lines and any most digits of a number.
ghost use Rattle.std.specs.Prelude.{◌≡◌, ◌≤◌, ◌<◌, eqb, length, IfSome};
ghost use Rattle.sheet.specs.Bytes.{comma};
ghost use Rattle.sheet.specs.Lines.{numbers_of};
ghost use Rattle.sheet.specs.Inner.{span_of, parts_from, as_numbers, found_at, position_of, DigitsAre, FieldIs};
ghost use Rattle.sheet.specs.Forms.{SomeForms, LineIs};

use crate::bytes::{ByteKind, kind_of};

// The field of a line from some position on: its end and its value.
#[derive(Drop)]
pub struct Field {
    pub end: usize,
    pub value: u32,
}

// The field from `at` on, where it is digits up to the comma or the end; not with more than one digit above the most.
fn digits_from(line: &[u8], at: usize, most: usize) -> Option<Field>
    requires { (at ≤ length line.now) × (most ≤ 8) }
    ensures { DigitsAre most line.now at result }
{
    let mut value: u32 = 0;
    for end in at..line.len() {
        if most < end - at {
            return None;
        }
        let b = line[end];
        match kind_of(b) {
            ByteKind::Digit => value = value * 10 + (b - 48) as u32,
            ByteKind::Comma => return Some(Field { end, value }),
            _ => return None,
        }
    }
    Some(Field {
        end: line.len(),
        value,
    })
}

// The field from `at` on, where it is a number: one to `most` digits, no leading zero except 0 itself.
fn field_at(line: &[u8], at: usize, most: usize) -> Option<Field>
    requires { (at ≤ length line.now) × (most ≤ 8) }
    ensures { FieldIs most line.now at result }
{
    let f = digits_from(line, at, most)?;
    let n = f.end - at;
    if (n == 0) | (most < n) {
        return None;
    }
    if (1 < n) & (line[at] == 48) {
        return None;
    }
    Some(f)
}

// A line: the position of its kind among the letters, and its numbers.
#[derive(Drop)]
pub struct Parsed {
    pub kind: usize,
    pub values: [u32; 8],
}

// The numbers of a line, which are exactly `width` fields from position 2 on, of at most `most` digits each.
fn numbers_in(line: &[u8], width: usize, most: usize) -> Option<[u32; 8]>
    requires { (width ≤ 8) × (most ≤ 8) }
    ensures { as_numbers width result ≡ numbers_of most width (parts_from comma 2 line.now) }
{
    let mut values = [0u32; 8];
    let mut at = 2;
    for k in 0..width {
        if line.len() < at {
            return None;
        }
        let f = field_at(line, at, most)?;
        values[k] = f.value;
        at = f.end + 1;
    }
    if at <= line.len() {
        return None;
    }
    Some(values)
}

// The position of the letter c, if it is one of them.
// Stays: all letters are looked at, from the last; with a way out at the first that is c, the compiler makes a table of constants for four letters.
fn position(letters: &[u8], c: u8) -> Option<usize>
    ensures found { found_at (length letters.now) result ≡ position_of c letters.now }
    ensures inside { IfSome result (λ k. k < length letters.now) }
{
    let mut found = None;
    for k in (0..letters.len()).rev() {
        if letters[k] == c {
            found = Some(k);
        }
    }
    found
}

// Whether the first field of l is one byte: nothing past the first two bytes is looked at.
fn is_letter_first(l: &[u8]) -> bool
    ensures { result ≡ eqb (span_of comma l.now) 1 }
{
    if l.len() == 0 {
        return false;
    }
    if kind_of(l[0]) == ByteKind::Comma {
        return false;
    }
    if l.len() == 1 {
        return true;
    }
    kind_of(l[1]) == ByteKind::Comma
}

// The line that the bytes of l are, without a line feed, among lines with these letters and counts of numbers of at most `most` digits; none where test 2
// refuses it.
pub fn line_in(l: &[u8], letters: &[u8], widths: &[usize], most: usize) -> Option<Parsed>
    requires { (SomeForms letters.now widths.now) × (most ≤ 8) }
    ensures { LineIs most letters.now widths.now l.now result }
{
    if !is_letter_first(l) {
        return None;
    }
    let kind = position(letters, l[0])?;
    let values = numbers_in(l, widths[kind], most)?;
    Some(Parsed { kind, values })
}
