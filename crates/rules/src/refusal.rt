// Why a call refuses: the table of document 01, a case a number. A call answers with a `Result`, whose number is 0 where it is accepted.
ghost use Rattle.std.specs.Prelude.{◌≡◌};
ghost use Rattle.rules.specs.Answers.{number_of, number};

// 01.Refusal.2 to 01.Refusal.12, in the order in which they are tested.
#[derive(Clone, Copy, Debug, PartialEq, Eq)]
pub enum Refusal {
    // A side is over the limit; for resolving one coordinate, also a side of 0.
    Side = 1,
    // A lent input is not width times height long.
    Input = 2,
    // A tap count, kernel side or window is zero, even or too large, or the weights are not as many.
    Count = 3,
    // A tap or weight is infinite or NaN.
    Weight = 4,
    // A threshold is not finite, below 0 or above 255.
    Threshold = 5,
    // Low is greater than high.
    Order = 6,
    // A lent output or work buffer is too short.
    Room = 7,
    // A slice's budget is 0.
    Budget = 8,
    // A walk's state is unusable.
    State = 9,
    // The map is asked for while pixels are pending.
    Pending = 10,
    // A frame file breaks its layout.
    Layout = 11,
}

impl From<Refusal> for u8 {
    ghost from_gives = { λ refusal n. n ≡ number_of refusal };

    fn from(refusal: Refusal) -> u8 {
        refusal as u8
    }
}

// The number of an answer, for those who want numbers: the exports for C and the programs.
pub fn number<T: Copy>(answer: Result<T, Refusal>) -> u8
    ensures { result ≡ number answer }
{
    match answer {
        Ok(_) => 0,
        Err(refusal) => u8::from(refusal),
    }
}
