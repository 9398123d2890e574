// Why a call is refused (document 01, "Who causes which refusal"; document 02, E3, E5 and E6), and at which line.
ghost use Rattle.std.specs.Prelude.{◌≡◌};
ghost use Rattle.sheet.specs.Refusals.{number_of};

// A refusal by what it says. They count from 1 on without a gap, so that no table of constants holds their numbers; the papers' numbers leave 13 out.
#[derive(Clone, Copy, PartialEq, Eq)]
pub enum Refusal {
    TooLong = 1,
    Malformed = 2,
    OutOfOrder = 3,
    OutOfRange = 4,
    NotAscending = 5,
    Reversed = 6,
    TooManyLines = 7,
    RoomArrivals = 8,
    RoomCosts = 9,
    NotOnFront = 10,
    RoomPath = 11,
    RoomSheet = 12,
    MonthLines = 13,
    NoCorridor = 14,
    Late = 15,
}

impl Refusal {
    // Its number in the papers.
    pub fn number(self) -> u32
        ensures { result ≡ number_of self }
    {
        let n = self as u32;
        if n < 13 { n } else { n + 1 }
    }
}

// A refusal and the line at fault, 0 where no line is.
#[derive(Clone, Copy, PartialEq, Eq)]
pub struct Refused {
    pub refusal: Refusal,
    pub line: u32,
}

// A refusal that no line is at fault for.
impl From<Refusal> for Refused {
    ghost from_gives = { λ k r. r ≡ record { refusal = k; line = 0 } };

    fn from(refusal: Refusal) -> Refused {
        Refused { refusal, line: 0 }
    }
}
