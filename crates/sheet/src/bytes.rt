// The kinds of bytes, from comparisons with the ends of their ranges (document 02, E4).
ghost use Rattle.std.specs.Prelude.{◌≡◌, ◌+◌, ◌≤◌, length, drop};
ghost use Rattle.sheet.specs.Bytes.{kind_of, line_feed};
ghost use Rattle.sheet.specs.ByteKinds.{kind_number};
ghost use Rattle.sheet.specs.Inner.{span_of};

// The kinds, by the numbers that the table gave.
#[derive(Clone, Copy, PartialEq, Eq)]
pub enum ByteKind {
    Digit = 0,
    Comma = 1,
    LineFeed = 2,
    Letter = 3,
    Other = 4,
}

// The kind of a byte.
pub fn kind_of(b: u8) -> ByteKind
    ensures { kind_number result ≡ kind_of b }
{
    if (48 <= b) & (b <= 57) {
        return ByteKind::Digit;
    }
    if b == 44 {
        return ByteKind::Comma;
    }
    if b == 10 {
        return ByteKind::LineFeed;
    }
    if (65 <= b) & (b <= 90) {
        return ByteKind::Letter;
    }
    ByteKind::Other
}

// The first position from `at` on of a line feed, or the length, byte by byte: for the last bytes of a text.
fn near_feed(s: &[u8], at: usize) -> usize
    requires { at ≤ length s.now }
    ensures { result ≡ at + span_of line_feed (drop at s.now) }
{
    for i in at..s.len() {
        if kind_of(s[i]) == ByteKind::LineFeed {
            return i;
        }
    }
    s.len()
}

// The first position from `at` on of a line feed, or the length.
// Stays: four bytes a turn, with one test of the end for them; byte by byte the search was a sixth of all that reading does.
// Stays: a position and no Option, since the length is one too: what is left of a text without a line feed ends there.
pub fn feed_from(s: &[u8], at: usize) -> usize
    requires { at ≤ length s.now }
    ensures { result ≡ at + span_of line_feed (drop at s.now) }
{
    let mut i = at;
    while 4 <= s.len() - i {
        if kind_of(s[i]) == ByteKind::LineFeed {
            return i;
        }
        if kind_of(s[i + 1]) == ByteKind::LineFeed {
            return i + 1;
        }
        if kind_of(s[i + 2]) == ByteKind::LineFeed {
            return i + 2;
        }
        if kind_of(s[i + 3]) == ByteKind::LineFeed {
            return i + 3;
        }
        i += 4;
    }
    near_feed(s, i)
}
