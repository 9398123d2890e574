// What a program reads of its standard input (document 01, "The program reads a sheet on standard input ..."; document 02, E3, of a month).

#![tactic(auto)]

ghost use Rattle.input.specs.Input.{Within};

use std::io;
use std::io::Read;

// Reads the input that is lent, a program's standard input, to its end, or until the buffer is full; the count of its bytes. A read that a signal
// interrupts counts as one that failed.
pub fn read_input(input: &mut impl Read, buffer: &mut [u8]) -> io::Result<usize>
    ensures { Within result buffer.new }
{
    let mut n = 0;
    // Stays: the count goes by what each read gave, no `for` counts it.
    while n < buffer.len() {
        let more = input.read(&mut buffer[n..])?;
        if more == 0 {
            return Ok(n);
        }
        n += more;
    }
    Ok(n)
}
