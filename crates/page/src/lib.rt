// The page that the program prints for the bytes of a sheet (document 01, "The program reads a sheet on standard input ...").

#![tactic(auto)]

ghost use Rattle.std.specs.Prelude.{◌≡◌};
ghost use Rattle.sheet.specs.Laws.Puts.{Puts};
ghost use Rattle.page.specs.Page.{page_on, page, held};
ghost use Rattle.page.specs.Inner.{Lent, Servable};

use crate::offers::put_journeys;
use intervals::derive;
use journeys::calls::front_of;
use sheet::held::HeldSheet;
use sheet::kinds::{KINDS, STORE};
use sheet::printed::Printed;
use sheet::reader::read_into;
use sheet::text::{put_line, put_refusal};

pub mod offers; // offers.rt: the lines of each front cost

// A page of a sheet: none is longer than 163,840 bytes.
pub type PageText = Printed<163840>;

// Writes the page of a sheet: the counts and the lines of each front cost, or the refusal alone; the count of its bytes. The sheet is searched once.
fn put_searched(
    sheet: &HeldSheet,
    since: &[u16],
    table: &mut [u32],
    list: &mut [u32],
    out: &mut [u8],
) -> usize
    requires { Servable sheet.now since.now table.old list.old out.old }
    ensures { Puts (page_on sheet.now) out.old 0 out.new result }
{
    let r = match front_of(sheet, since, table, list) {
        Ok(r) => r,
        Err(refusal) => return put_refusal(out, refusal.number(), 0),
    };
    let counts = [r.costs as u64, r.arrivals as u64];
    let next = put_line(out, 0, 70, &counts, 10);
    let e = r.costs * 4;
    put_journeys(sheet, since, table, r.arrivals, &list[..e], out, next)
}

// The same, with the first steps of the free runs worked out here.
fn put_stored(sheet: &HeldSheet, table: &mut [u32], list: &mut [u32], out: &mut [u8]) -> usize
    requires { Lent table.old list.old out.old }
    ensures { Puts (page_on sheet.now) out.old 0 out.new result }
{
    let mut since = [0u16; 16384];
    derive(sheet, &mut since);
    put_searched(sheet, &since, table, list, out)
}

// Writes the page for the bytes of a sheet; the count of its bytes.
fn put_page(src: &[u8], table: &mut [u32], list: &mut [u32], out: &mut [u8]) -> usize
    requires { Lent table.old list.old out.old }
    ensures { Puts (page src.now) out.old 0 out.new result }
{
    let mut lines = [0u32; KINDS];
    let mut all = [0u32; STORE];
    match read_into(src, &mut lines, &mut all) {
        Err(refused) => put_refusal(out, refused.refusal.number(), refused.line),
        Ok(()) => put_stored(&HeldSheet::of(&lines, &all), table, list, out),
    }
}

// The page for the bytes of a sheet.
pub fn page_of(src: &[u8]) -> PageText
    ensures { result ≡ held src.now }
{
    let mut table = [0u32; 10000];
    let mut list = [0u32; 800];
    let mut bytes = [0u8; 163840];
    let count = put_page(src, &mut table, &mut list, &mut bytes);
    PageText { bytes, count }
}
