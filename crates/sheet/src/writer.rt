// The writer: from the groups to the bytes of a sheet.
ghost use Rattle.std.specs.Prelude.{◌≡◌, ◌+◌, ◌≤◌, ◌<◌, length, take, drop};
ghost use Rattle.sheet.specs.Lists.{filled};
ghost use Rattle.sheet.specs.Kinds.{width, kind_s};
ghost use Rattle.sheet.specs.Calls.{groups, judged_groups, write_call, write_end};
ghost use Rattle.sheet.specs.Refusals.{number_of, verdict, verdict_at};
ghost use Rattle.sheet.specs.Store.{kind_count, Blank, SomeStore, VerdictIs, WrittenIs};
ghost use Rattle.sheet.specs.Inner.{GroupReached, GroupTaken};

use crate::SheetWritten;
use crate::kinds::{
    C_LINE, CLOSURE, CORRIDOR, HEAD, KINDS, O_LINE, OCCUPANCY, S_LINE, STORE, W_LINE, WAIT, X_LINE,
    row_of,
};
use crate::reader::ended;
use crate::refusal::{Refusal, Refused};
use crate::store::take_line;
use crate::text::{put_sheet, sheet_bytes};

// The numbers of g from `from` on, w of them, then zeros.
fn row_at(g: &[u32], from: usize, w: usize) -> [u32; 8]
    requires { (w ≤ 8) × (from + w ≤ length g.now) }
    ensures { result ≡ filled 8 (take w (drop from g.now)) }
{
    let mut v = [0u32; 8];
    v[..w].copy_from_slice(&g[from..from + w]);
    v
}

// Takes the lines of kind k whose numbers stand in g one after another, after those in the array, of which the next has the number n: the number of the
// line after them. Or refuses the first that has a fault.
fn take_group(
    lines: &mut [u32],
    all: &mut [u32],
    k: usize,
    g: &[u32],
    n: u32,
) -> Result<u32, Refused>
    requires { (k < kind_count) × (GroupReached lines.old all.old n) }
    ensures { GroupTaken k g.now lines.old all.old n lines.new all.new (verdict_at result) }
{
    let row = row_of(k);
    let w = row.width;
    let count = g.len() / w;
    let mut next = n;
    for i in 0..count {
        let v = row_at(g, i * w, w);
        if let Err(refusal) = take_line(lines, all, k, v) {
            return Err(Refused {
                refusal,
                line: next,
            });
        }
        next += 1;
    }
    Ok(next)
}

// Takes the groups as the lines of a sheet into the array of all groups, with the counts of lines; or refuses them, with the line at fault.
fn take_groups(
    head: &[u32],
    waits: &[u32],
    corridors: &[u32],
    closures: &[u32],
    occupancies: &[u32],
    lines: &mut [u32],
    all: &mut [u32],
) -> Result<(), Refused>
    requires { (length head.now ≡ width kind_s) × (Blank lines.old all.old) }
    ensures { VerdictIs
        (judged_groups (groups head.now waits.now corridors.now closures.now occupancies.now))
        lines.new all.new (verdict result) }
{
    let s = take_group(lines, all, S_LINE, head, 1)?;
    let w = take_group(lines, all, W_LINE, waits, s)?;
    let c = take_group(lines, all, C_LINE, corridors, w)?;
    let x = take_group(lines, all, X_LINE, closures, c)?;
    let o = take_group(lines, all, O_LINE, occupancies, x)?;
    ended(lines, all, o)
}

// A refusal at a line, 0 where no line is.
// Stays: beside the reader's `refuse`, since each makes another of C's structs.
fn refuse(r: Refused) -> SheetWritten
    ensures { (result.refusal ≡ number_of r.refusal) × (result.line ≡ r.line) × (result.bytes ≡ 0) }
{
    SheetWritten {
        refusal: r.refusal.number(),
        line: r.line,
        bytes: 0,
    }
}

// Writes the sheet in the array: the count of bytes, or 12 where the buffer is shorter. What is past the bytes is kept.
pub fn write_stored(lines: &[u32], all: &[u32], out: &mut [u8]) -> SheetWritten
    requires { SomeStore lines.now all.now }
    ensures { WrittenIs lines.now all.now out.old out.new result }
{
    let bytes = sheet_bytes(lines, all);
    if out.len() < bytes {
        return refuse(Refused {
            refusal: Refusal::RoomSheet,
            line: 0,
        });
    }
    put_sheet(lines, all, out);
    SheetWritten {
        refusal: 0,
        line: 0,
        bytes: bytes as u32,
    }
}

// Writes the sheet of the groups: the S line's numbers, and those of each place's wait, of each corridor, of each closure and of each occupancy. Hands back the
// count of bytes, or one numbered refusal with the line at fault; the buffer past the bytes is kept, and a refusal writes nothing.
pub fn write(
    head: &[u32],
    waits: &[u32],
    corridors: &[u32],
    closures: &[u32],
    occupancies: &[u32],
    out: &mut [u8],
) -> SheetWritten
    ensures { write_end result out.new
        ≡ write_call head.now waits.now corridors.now closures.now occupancies.now out.old }
{
    if (head.len() != HEAD)
        | (waits.len() % WAIT != 0)
        | (corridors.len() % CORRIDOR != 0)
        | (closures.len() % CLOSURE != 0)
        | (occupancies.len() % OCCUPANCY != 0)
    {
        return refuse(Refused {
            refusal: Refusal::Malformed,
            line: 0,
        });
    }
    let mut lines = [0u32; KINDS];
    let mut all = [0u32; STORE];
    let taken = take_groups(
        head,
        waits,
        corridors,
        closures,
        occupancies,
        &mut lines,
        &mut all,
    );
    match taken {
        Ok(()) => write_stored(&lines, &all, out),
        Err(refused) => refuse(refused),
    }
}
