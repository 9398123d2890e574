// The lines of a sheet that were read or taken so far, in one array of all groups: in the order of kinds, each at full length.
ghost use Rattle.std.specs.Prelude.{◌≡◌, ◌+◌, ◌≤◌, ◌<◌, leb, length, get_or, set, take};
ghost use Rattle.std.proofs.lemmas.List.Edits.{sets};
ghost use Rattle.sheet.specs.Lists.{pick};
ghost use Rattle.sheet.specs.Refusals.{code};
ghost use Rattle.sheet.specs.Store.{kind_count};
ghost use Rattle.sheet.specs.Inner.{line_at, Kept, Takes};

use crate::judge::fault_of;
use crate::kinds::row_of;
use crate::refusal::Refusal;

// Writes number i of v, if it is one of the first w, into its place from `at` on.
fn store_one(all: &mut [u32], at: usize, v: [u32; 8], w: usize, i: usize)
    requires { (w ≤ 8) × (at + w ≤ length all.old) }
    ensures { all.new ≡ pick (leb w i) all.old (set all.old (at + i) (get_or v i 0)) }
{
    if w <= i {
        return;
    }
    all[at + i] = v[i];
}

// Writes the first w numbers of v from `at` on.
// Stays: the loop is over all of v; one that ends at w, or copy_from_slice, becomes a call of memcpy for a dozen bytes, which is slower.
fn store(all: &mut [u32], at: usize, v: [u32; 8], w: usize)
    requires { (w ≤ 8) × (at + w ≤ length all.old) }
    ensures { all.new ≡ sets all.old at (take w v) }
{
    for i in 0..8 {
        store_one(all, at, v, w, i);
    }
}

// Judges a line after the lines in the array, and stores it after those of its kind if it has no fault.
pub fn take_line(
    lines: &mut [u32],
    all: &mut [u32],
    kind: usize,
    v: [u32; 8],
) -> Result<(), Refusal>
    requires { (kind < kind_count) × (Kept lines.old all.old) }
    ensures { Takes lines.old all.old (line_at kind v) lines.new all.new (code result) }
{
    let row = row_of(kind);
    fault_of(lines, all, kind, row, v)?;
    let n = lines[kind];
    let at = row.base + n as usize * row.width;
    store(all, at, v, row.width);
    lines[kind] = n + 1;
    Ok(())
}
