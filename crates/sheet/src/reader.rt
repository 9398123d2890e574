// The reader: from the bytes of a sheet to its groups.
ghost use Rattle.std.specs.Prelude.{◌≡◌, ◌≤◌, length};
ghost use Rattle.sheet.specs.Kinds.{kinds};
ghost use Rattle.sheet.specs.Sheet.{refused, read_of};
ghost use Rattle.sheet.specs.Calls.{read_answer, read_call};
ghost use Rattle.sheet.specs.Store.{kind_count, Blank, SomeStore, VerdictIs};
ghost use Rattle.sheet.specs.Refusals.{number_of, verdict, verdict_at};
ghost use Rattle.sheet.specs.Inner.{AnswerIs, EndedIs, Kept};
ghost use Rattle.sheet.specs.Forms.{Forms};
ghost use Rattle.sheet.specs.LineEnds.{ReadUpTo, NextIs, OverIs};

use crate::SheetRead;
use crate::judge::lacks;
use crate::kinds::{
    CLOSURES, CORRIDORS, DIGITS, FIRST_CLOSURE, FIRST_CORRIDOR, FIRST_OCCUPANCY, FIRST_WAIT, HEAD,
    KINDS, MOST_BYTES, OCCUPANCIES, STORE, WAITS, row_of,
};
use crate::line_reader::LineReader;
use crate::lines::line_in;
use crate::refusal::{Refusal, Refused};
use crate::store::take_line;

// The letters of the kinds and the counts of their numbers.
#[derive(Clone, Copy)]
pub struct FormsOfLines {
    pub letters: [u8; KINDS],
    pub widths: [usize; KINDS],
}

// Refuses an input that ends after the lines in the array where something is missing; the line after them has the number n.
pub fn ended(lines: &[u32], all: &[u32], n: u32) -> Result<(), Refused>
    requires { (length lines.now ≡ kind_count) × (1 ≤ length all.now) }
    ensures { EndedIs lines.now all.now n (verdict result) }
{
    if lacks(lines, all) {
        return Err(Refused {
            refusal: Refusal::OutOfOrder,
            line: n,
        });
    }
    Ok(())
}

// The letters of the kinds and the counts of their numbers.
fn forms() -> FormsOfLines
    ensures { Forms kinds result.letters result.widths }
{
    let mut letters = [0u8; KINDS];
    let mut widths = [0usize; KINDS];
    for k in 0..KINDS {
        let row = row_of(k);
        letters[k] = row.letter;
        widths[k] = row.width;
    }
    FormsOfLines { letters, widths }
}

// Takes the reader's next line: it is judged after the lines in the array, and stored after those of its kind if it has no fault. It ends at the line feed
// handed back; nothing is left where there is none.
fn take_next<'a, 'l, 's>(
    f: FormsOfLines,
    r: LineReader<'a>,
    lines: &'l mut [u32],
    all: &'s mut [u32],
) -> Result<Option<usize>, Refusal>
    requires { Forms kinds f.letters f.widths × Kept lines.old all.old }
    ensures { NextIs r.entry.src.now r.entry.at lines.old all.old lines.new all.new result }
{
    let Some(end) = r.next_line()? else {
        return Ok(None);
    };
    let Some(l) = line_in(&r.src[r.at..end], &f.letters, &f.widths, DIGITS) else {
        return Err(Refusal::Malformed);
    };
    take_line(lines, all, l.kind, l.values)?;
    Ok(Some(end))
}

// Takes the lines of src, one after another, until none is left: the number of the line after the last. Or until one is refused.
fn take_lines<'a, 'l, 's>(
    f: FormsOfLines,
    src: &'a [u8],
    lines: &'l mut [u32],
    all: &'s mut [u32],
) -> Result<u32, Refused>
    requires { Forms kinds f.letters f.widths × ReadUpTo src.now 0 lines.old all.old 1 }
    ensures { OverIs src.now lines.new all.new (verdict_at result) }
{
    let mut r = LineReader::open(src);
    let mut n: u32 = 1;
    loop {
        match take_next(f, r, lines, all) {
            Ok(Some(feed)) => {
                r = r.after_line(feed);
                n += 1;
            }
            Ok(None) => return Ok(n),
            Err(refusal) => return Err(Refused { refusal, line: n }),
        }
    }
}

// Reads a sheet into the array of all groups, with the counts of lines; or refuses it, with the line at fault. No byte is looked at more than a fixed
// number of times.
pub fn read_into(src: &[u8], lines: &mut [u32], all: &mut [u32]) -> Result<(), Refused>
    requires { Blank lines.old all.old }
    ensures { VerdictIs (read_of src.now) lines.new all.new (verdict result) }
{
    if MOST_BYTES < src.len() {
        return Err(Refused {
            refusal: Refusal::TooLong,
            line: 0,
        });
    }
    let f = forms();
    let next = take_lines(f, src, lines, all)?;
    ended(lines, all, next)
}

// A refusal: its number, its line, and zeros.
fn refuse(r: Refused) -> SheetRead
    ensures { result ≡ read_answer (refused (number_of r.refusal) r.line) }
{
    SheetRead {
        refusal: r.refusal.number(),
        line: r.line,
        lines: [0u32; KINDS],
        head: [0u32; HEAD],
        waits: [0u32; WAITS],
        corridors: [0u32; CORRIDORS],
        closures: [0u32; CLOSURES],
        occupancies: [0u32; OCCUPANCIES],
    }
}

// The groups of the sheet in the array, by value.
fn handed_back(lines: [u32; KINDS], all: &[u32]) -> SheetRead
    requires { SomeStore lines all.now }
    ensures { AnswerIs lines all.now result }
{
    let mut head = [0u32; HEAD];
    let mut waits = [0u32; WAITS];
    let mut corridors = [0u32; CORRIDORS];
    let mut closures = [0u32; CLOSURES];
    let mut occupancies = [0u32; OCCUPANCIES];
    head.copy_from_slice(&all[..FIRST_WAIT]);
    waits.copy_from_slice(&all[FIRST_WAIT..FIRST_CORRIDOR]);
    corridors.copy_from_slice(&all[FIRST_CORRIDOR..FIRST_CLOSURE]);
    closures.copy_from_slice(&all[FIRST_CLOSURE..FIRST_OCCUPANCY]);
    occupancies.copy_from_slice(&all[FIRST_OCCUPANCY..STORE]);
    SheetRead {
        refusal: 0,
        line: 0,
        lines,
        head,
        waits,
        corridors,
        closures,
        occupancies,
    }
}

// Reads a sheet: its groups, or one numbered refusal with the line at fault.
pub fn read(src: &[u8]) -> SheetRead
    ensures { result ≡ read_call src.now }
{
    let mut lines = [0u32; KINDS];
    let mut all = [0u32; STORE];
    if let Err(refused) = read_into(src, &mut lines, &mut all) {
        return refuse(refused);
    }
    handed_back(lines, &all)
}
