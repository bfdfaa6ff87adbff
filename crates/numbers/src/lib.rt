// The numbers that a call ends with, by their names: 0 for one that is done, and one for each refusal.
//
// What each refusal's circumstances are is said by `rules`. Below the calls a refusal is handed up by its name, and becomes a number where a call ends.
#![tactic(auto)]

ghost use Rattle.std.specs.Prelude.{◌≡◌};
ghost use Rattle.numbers.specs.Refusals.{refusal_code};
ghost use Rattle.numbers.specs.Inner.Ended.{ended_with};

// What a call is refused for, in the order of the list.
#[derive(Clone, Copy, Debug, PartialEq, Eq)]
pub enum Refusal {
    SmallBuffer,
    BadTable,
    BadMessage,
    Changing,
    OtherBody,
    Contradiction,
    Full,
    Unknown,
    OtherView,
    OldView,
    WrongTables,
}

impl Refusal {
    // The number of a refusal.
    pub fn number(self) -> u8
        ensures { result ≡ refusal_code self }
    {
        match self {
            Refusal::SmallBuffer => 1,
            Refusal::BadTable => 2,
            Refusal::BadMessage => 3,
            Refusal::Changing => 4,
            Refusal::OtherBody => 5,
            Refusal::Contradiction => 6,
            Refusal::Full => 7,
            Refusal::Unknown => 8,
            Refusal::OtherView => 9,
            Refusal::OldView => 10,
            Refusal::WrongTables => 11,
        }
    }
}

// The number that a call ends with, of which nothing but a refusal is told.
pub fn number_of(ended: Result<(), Refusal>) -> u8
    ensures { result ≡ ended_with ended }
{
    match ended {
        Ok(()) => 0,
        Err(refusal) => refusal.number(),
    }
}
