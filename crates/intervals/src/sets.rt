// Sets of places, each one number: place v is in a set where the binary digit v of the number is 1. So the places of a step that are to be looked at are
// found without a look at the others.
ghost use Rattle.std.specs.Prelude.{◌≡◌, ◌+◌, ◌^◌, ◌≤◌, ◌<◌, length};
ghost use Rattle.std.specs.Int.Bits.{bit_or};
ghost use Rattle.intervals.specs.FirstSteps.{ValidGroup};
ghost use Rattle.intervals.specs.Inner.{FollowedBy};
ghost use Rattle.intervals.specs.Sets.{with_place, NextIn, Begun};

use sheet::Place;
use sheet::held::HeldSheet;
use sheet::kinds::{O_LINE, OCCUPANCY};

// Adds place v to set i.
#[tactic(auto, unfolding(crate::specs::Sets::with_place))]
pub fn add(sets: &mut [u64], i: usize, v: Place)
    requires { (i < length sets.old) × (v.0 < 64) }
    ensures { sets.new ≡ with_place sets.old i v.0 }
{
    let own = 1u64 << v.0;
    sets[i] = sets[i] | own;
}

// The places of two sets.
pub fn union(a: u64, b: u64) -> u64
    ensures { result ≡ bit_or a b }
{
    a | b
}

// The set with place v.
pub fn with(set: u64, v: Place) -> u64
    requires { v.0 < 64 }
    ensures { result ≡ bit_or set (2 ^ v.0) }
{
    set | (1u64 << v.0)
}

// The first place from v on that is in a set; 64 or more where there is none.
// Stays: a number and no Option, since each caller stops at the count of places, which one test ends with "none".
pub fn next_in(set: u64, v: u32) -> u32
    requires { v < 64 }
    ensures { NextIn set v result }
{
    v + u64::trailing_zeros(set >> v)
}

// Adds to set t every place of which an occupancy ends at the step before t.
fn add_ends(occupancies: &[u32], sets: &mut [u64])
    requires { (ValidGroup occupancies.now) × (257 ≤ length sets.old) }
    ensures { FollowedBy occupancies.now sets.old sets.new }
{
    let (lines, _) = occupancies.as_chunks::<OCCUPANCY>();
    for [place, _, last] in lines {
        add(sets, *last as usize + 1, Place(*place));
    }
}

// Adds to set t every place of which a free run begins at step t, for each step from 1 on; perhaps others.
pub fn add_begins(sheet: &HeldSheet, sets: &mut [u64])
    requires { 257 ≤ length sets.old }
    ensures { Begun sheet.now sets.old sets.new }
{
    add_ends(sheet.group(O_LINE), sets);
}
