// The line reader: a sheet's bytes and a position in them (document 01, "The line reader goes on from the byte after the last line feed").
// The methods of the struct are thin, and the work is done on slices and numbers.
ghost use Rattle.std.specs.Prelude.{◌≡◌};
ghost use Rattle.sheet.specs.LineEnds.{EndIs, EndsAt, opened, gone_on};

use crate::bytes::feed_from;
use crate::refusal::Refusal;

#[derive(Clone, Copy)]
pub struct LineReader<'a> {
    pub src: &'a [u8],
    pub at: usize,
}

// Where the line from `at` on ends: at the line feed at a position, or nothing is left; refused where its line feed is missing.
pub fn end_at(src: &[u8], at: usize) -> Result<Option<usize>, Refusal>
    ensures { EndIs src.now at result }
{
    if src.len() <= at {
        return Ok(None);
    }
    let e = feed_from(src, at);
    if e == src.len() {
        return Err(Refusal::Malformed);
    }
    Ok(Some(e))
}

impl<'a> LineReader<'a> {
    // The reader of a sheet's bytes, at the first of them.
    pub fn open(src: &'a [u8]) -> LineReader<'a>
        ensures { result ≡ opened src.entry }
    {
        LineReader { src, at: 0 }
    }

    // Where its next line ends.
    pub fn next_line(self) -> Result<Option<usize>, Refusal>
        ensures { EndIs self.entry.src.now self.entry.at result }
    {
        end_at(self.src, self.at)
    }

    // The reader after its next line, which ends at `end`.
    pub fn after_line(self, end: usize) -> LineReader<'a>
        requires { EndsAt self.src.now self.at end }
        ensures { result ≡ gone_on self.entry end }
    {
        LineReader {
            src: self.src,
            at: end + 1,
        }
    }
}
