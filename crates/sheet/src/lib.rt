// The corridor sheet: places and steps, the reader and the writer (document 01, "The sheet", "What is handed back").

#![tactic(auto)]

pub mod refusal; // refusal.rt: why a call is refused
pub mod held; // held.rt: a valid sheet in one array
pub mod bytes; // bytes.rt: the kinds of bytes
pub mod kinds; // kinds.rt: the kinds of lines, by their numbers
pub mod lines; // lines.rt: what the bytes of a line stand for
pub mod seek; // seek.rt: a line sought by its first numbers
pub mod judge; // judge.rt: the tests of a line
pub mod store; // store.rt: the lines so far, in one array
pub mod printed; // printed.rt: a page and the count of its bytes
pub mod text; // text.rt: what is written of numbers and lines
pub mod line_reader; // line_reader.rt: a sheet's bytes and a position in them
pub mod reader; // reader.rt: from bytes to the groups
pub mod writer; // writer.rt: from the groups to bytes

use crate::kinds::{CLOSURES, CORRIDORS, HEAD, KINDS, OCCUPANCIES, WAITS};

// A place of the sheet, numbered from 0: the source's node (001).
#[derive(Clone, Copy, PartialEq, Eq, PartialOrd, Ord)]
pub struct Place(pub u32);

// A step from 0 to the horizon: the source's time (001).
#[derive(Clone, Copy, PartialEq, Eq, PartialOrd, Ord)]
pub struct Step(pub u32);

// What a read sheet hands back: the count of lines of each group, and the groups at full length, zeros past the last line.
#[repr(C)]
#[derive(Drop)]
pub struct SheetRead {
    pub refusal: u32,
    pub line: u32,
    pub lines: [u32; KINDS],
    pub head: [u32; HEAD],
    pub waits: [u32; WAITS],
    pub corridors: [u32; CORRIDORS],
    pub closures: [u32; CLOSURES],
    pub occupancies: [u32; OCCUPANCIES],
}

// What a written sheet hands back: the count of bytes.
#[repr(C)]
#[derive(Drop)]
pub struct SheetWritten {
    pub refusal: u32,
    pub line: u32,
    pub bytes: u32,
}
