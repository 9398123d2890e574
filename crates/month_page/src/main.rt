// The program: the lines of a month on standard input, its page on standard output (document 02, E3, "A program reads them and prints ..."). It reads
// one byte more than decide the page: what stands after them in a longer input changes nothing (`page-cut` in crates/month/specs/Laws/Cut.antt).
// Where a read fails there is no month and no page.

#![tactic(auto)]

ghost use Rattle.month_page.specs.Inner.{Enough, WholePage};

use input::read_input;
use month::lines::DECIDING;
use month::{MonthPage, page_of};
use std::io::Write;

// The page of the input whose first n bytes stand in the buffer.
fn page_from(buffer: &[u8], n: usize) -> MonthPage
    requires { Enough buffer.now n }
    ensures { WholePage buffer.now n result }
{
    page_of(&buffer[..n])
}

// Stays: beside the `main` of plan, since a common function would take the buffer, the page and both messages, all that these lines name.
fn main(rt: HostRuntime) {
    let mut month = [0u8; DECIDING + 1];
    let Ok(n) = read_input(&mut rt.stdin(), &mut month) else {
        let _ = rt.stderr().write_all(b"month: the month cannot be read\n");
        return;
    };
    let page = page_from(&month, n);
    if rt.stdout().write_all(page.text()).is_err() {
        let _ = rt
            .stderr()
            .write_all(b"month: the page cannot be written\n");
    }
}
