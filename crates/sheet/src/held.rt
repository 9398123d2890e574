// A valid sheet as the code holds it, in one array (document 01, "The sheet"). A contract sees the sheet alone.
ghost use Rattle.std.specs.Prelude.{◌≡◌, ◌<◌, [], length, get_or};
ghost use Rattle.sheet.specs.Lists.{number, flat};
ghost use Rattle.sheet.specs.Sheet.{groups_of, places, steps, start, goal};
ghost use Rattle.sheet.specs.Valid.{Valid};
ghost use Rattle.sheet.specs.Store.{kind_count, SomeStore, sheet_in};

use crate::kinds::row_of;
use crate::{Place, Step};
use std::marker::Model;

// The counts of lines of each kind, and the groups at full length in the order of kinds.
#[derive(Drop)]
pub struct HeldSheet<'a> {
    pub lines: &'a [u32],
    pub all: &'a [u32],
}

impl<'a> Model for HeldSheet<'a> {
    ghost use Rattle.sheet.specs.Sheet.{Sheet};
    ghost use Rattle.sheet.specs.Store.{sheet_in};
    ghost use Rattle.sheet.specs.Held.{IsHeld};

    ghost Value = { Sheet };

    ghost view = { λ h. sheet_in h.lines.now h.all.now };

    ghost invariant = { λ h. IsHeld h.lines.now h.all.now };
}

impl<'a> HeldSheet<'a> {
    // The sheet that stands in these arrays.
    pub fn of(lines: &'a [u32], all: &'a [u32]) -> HeldSheet<'a>
        requires { SomeStore lines.now all.now }
        ensures { result ≡ sheet_in lines.now all.now }
    {
        HeldSheet { lines, all }
    }

    // The count of lines of kind k.
    pub fn count(&self, k: usize) -> usize
        requires { k < kind_count }
        ensures valid { Valid self.now }
        ensures counted { result ≡ length (get_or (groups_of self.now) k []) }
    {
        let lines = self.lines;
        lines[k] as usize
    }

    // The numbers of the lines of kind k, one line after another.
    pub fn group(&self, k: usize) -> &[u32]
        requires { k < kind_count }
        ensures valid { Valid self.now }
        ensures numbers { result.now ≡ flat (get_or (groups_of self.now) k []) }
    {
        let all = self.all;
        let row = row_of(k);
        let end = row.base + self.count(k) * row.width;
        &all[row.base..end]
    }

    // Number i of the S line.
    fn number(&self, i: usize) -> u32
        requires { i < 5 }
        ensures valid { Valid self.now }
        ensures is { result ≡ number self.now.head i }
    {
        let all = self.all;
        all[i]
    }

    // The count of places.
    pub fn places(&self) -> u32
        ensures valid { Valid self.now }
        ensures is { result ≡ places self.now }
    {
        self.number(0)
    }

    // The last step.
    pub fn last_step(&self) -> Step
        ensures { result.0 ≡ steps self.now }
    {
        Step(self.number(1))
    }

    // The start.
    pub fn start(&self) -> Place
        ensures { result.0 ≡ start self.now }
    {
        Place(self.number(2))
    }

    // The goal.
    pub fn goal(&self) -> Place
        ensures { result.0 ≡ goal self.now }
    {
        Place(self.number(3))
    }
}
