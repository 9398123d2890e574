// The calls for the host (document 01, "What is handed back"; the kind of a byte, document 02, E4): each hands on to the function below it with the same
// promise.

#![tactic(auto)]

ghost use Rattle.std.specs.Prelude.{◌≡◌};
ghost use Rattle.sheet.specs.Bytes.{kind_of};
ghost use Rattle.sheet.specs.Calls.{read_call, write_call, write_end};
ghost use Rattle.journeys.specs.Calls.{front_end, front_call, journey_end, journey_call};

use journeys::calls::{front, journey};
use journeys::{FrontAnswer, JourneyAnswer};
use sheet::bytes::kind_of;
use sheet::reader::read;
use sheet::writer::write;
use sheet::{SheetRead, SheetWritten};

// Reads a sheet: its groups by value, or one numbered refusal of the sheet (1 to 7, 15, 16) with the line at fault and zeros.
#[unsafe(no_mangle)]
pub extern "C" fn planner_read(sheet: &[u8]) -> SheetRead
    ensures { result ≡ read_call sheet.now }
{
    read(sheet)
}

// Writes the sheet of the five groups into the lent buffer and hands back the count of bytes, or one numbered refusal (2 to 7, 12, 15, 16) with
// the line at fault; the buffer past the bytes, and after a refusal all of it, is kept.
#[unsafe(no_mangle)]
pub extern "C" fn planner_write(
    head: &[u32],
    waits: &[u32],
    corridors: &[u32],
    closures: &[u32],
    occupancies: &[u32],
    out: &mut [u8],
) -> SheetWritten
    ensures { write_end result out.new
        ≡ write_call head.now waits.now corridors.now closures.now occupancies.now out.old }
{
    write(head, waits, corridors, closures, occupancies, out)
}

// The front of a sheet: the arrivals table and the front list are filled, zeros to their ends, and the counts are handed back; or one numbered
// refusal: one of the sheet with the line at fault and the arrays kept, 8 or 9 with zeros in the arrivals table and the list kept.
#[unsafe(no_mangle)]
pub extern "C" fn planner_front(sheet: &[u8], arrivals: &mut [u32], list: &mut [u32]) -> FrontAnswer
    ensures { front_end result arrivals.new list.new ≡ front_call sheet.now arrivals.old list.old }
{
    front(sheet, arrivals, list)
}

// The journey with a number in the front, from 0: the path buffer holds one place for each step, then zeros, the arrivals table is filled, and the
// cost and the arrival step are handed back; or one numbered refusal: one of the sheet with the line at fault and the arrays kept, 8, 10 or 11
// with zeros in the arrivals table and the path buffer kept.
#[unsafe(no_mangle)]
pub extern "C" fn planner_journey(
    sheet: &[u8],
    number: u32,
    arrivals: &mut [u32],
    path: &mut [u32],
) -> JourneyAnswer
    ensures { journey_end result arrivals.new path.new
        ≡ journey_call sheet.now number arrivals.old path.old }
{
    journey(sheet, number, arrivals, path)
}

// The kind of a byte: digit 0, comma 1, line feed 2, letter 3, other 4.
#[unsafe(no_mangle)]
pub extern "C" fn planner_kind(byte: u8) -> u32
    ensures { result ≡ kind_of byte }
{
    kind_of(byte) as u32
}
