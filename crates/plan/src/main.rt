// The program: a sheet on standard input, its page on standard output (document 01, "The program reads a sheet on standard input ..."). It reads one
// byte more than a sheet may have, so that a longer input is seen and refused with 1 (`page-cut` in crates/page/specs/Laws/Page.antt): its buffer
// is made from the limit that the reader tests. Where a read fails there is no sheet and no page.

#![tactic(auto)]

use input::read_input;
use page::page_of;
use sheet::kinds::MOST_BYTES;
use std::io::Write;

// Stays: beside the `main` of month_page, since a common function would take the buffer, the page and both messages, all that these lines name.
fn main(rt: HostRuntime) {
    let mut sheet = [0u8; MOST_BYTES + 1];
    let Ok(n) = read_input(&mut rt.stdin(), &mut sheet) else {
        let _ = rt.stderr().write_all(b"plan: the sheet cannot be read\n");
        return;
    };
    let page = page_of(&sheet[..n]);
    if rt.stdout().write_all(page.text()).is_err() {
        let _ = rt.stderr().write_all(b"plan: the page cannot be written\n");
    }
}
