// What a check refuses: a row of the table of verdicts, by its word, and the place.
ghost use Rattle.std.specs.Prelude.{◌≡◌};
ghost use Rattle.base.specs.Answer.{number_of};
ghost use Rattle.base.specs.Code.{check_of, number_is};
ghost use Rattle.base.specs.Computed.{fails_at, fails_if};

// The rows of the table of verdicts.
#[derive(Clone, Copy, PartialEq, Eq)]
pub enum Fault {
    Contents = 1,
    Count = 2,
    Term = 3,
    Knowledge = 4,
    Claim = 5,
    Step = 6,
    Unfounded = 7,
    Reachable = 8,
    NoSecondWay = 9,
    Undone = 10,
    Page = 11,
    NoSuchTerm = 12,
    Program = 13,
    Ragged = 14,
    Stale = 15,
    NotShown = 16,
    OffTable = 17,
    NoClaim = 18,
    ShortSheet = 19,
    Overfull = 20,
}

impl Fault {
    // The row's number. A method has the word: `u8::from(fault)` doesn't tell a number from a place.
    pub fn number(self) -> u8
        ensures { result ≡ number_of self }
    {
        self as u8
    }

    // The refusal of this row, with its place.
    pub fn at(self, place: u16) -> Refusal
        ensures fault { result.fault ≡ self }
        ensures place { result.place ≡ place }
    {
        Refusal { fault: self, place }
    }

    // A check of places one after the other: it refuses at the first that is wrong, where there is one.
    pub fn at_first(self, wrong: Option<u16>) -> Result<(), Refusal>
        ensures { check_of result ≡ fails_at (number_of self) (number_is wrong) }
    {
        match wrong {
            Some(place) => Err(self.at(place)),
            None => Ok(()),
        }
    }
}

// A refusal carries the row's number, by its fault, and the place.
#[derive(Clone, Copy, PartialEq, Eq)]
pub struct Refusal {
    pub fault: Fault,
    pub place: u16,
}

impl Refusal {
    // A check of one test: it refuses where `wrong` is so.
    pub fn when(self, wrong: bool) -> Result<(), Refusal>
        ensures { check_of result ≡ fails_if wrong (number_of self.fault) self.place }
    {
        if wrong { Err(self) } else { Ok(()) }
    }
}
