// What a call refuses, and the number by which its caller knows it.
ghost use Rattle.std.specs.Prelude.{◌≡◌, pos};
ghost use Rattle.language.specs.Refusals.{refusal_number};

// Each refusal of the six calls, in the order of their numbers.
#[derive(Clone, Copy, Debug, PartialEq, Eq)]
pub enum Refusal {
    TextTooLong,
    TextUnread,
    RuleBroken,
    DeclaredTwice,
    UndeclaredValue,
    UnfitValue,
    OverLimit,
    RegisterTooShort,
    NoRegister,
    QueryTooLong,
    QueryUnread,
    TooDeep,
    BadName,
    BadPiece,
    Undeclared,
    UnfitPiece,
    TooManyNodes,
    QueryTooShort,
    NoQuery,
    NoAskedRegister,
    Mismatch,
    MarksTooShort,
    KindsClash,
    TreeTooShort,
    NoTree,
}

impl Refusal {
    // The number by which a caller knows it.
    pub fn number(self) -> u8
        ensures { result ≡ refusal_number self }
    {
        match self {
            Refusal::TextTooLong => 1,
            Refusal::TextUnread => 2,
            Refusal::RuleBroken => 3,
            Refusal::DeclaredTwice => 4,
            Refusal::UndeclaredValue => 5,
            Refusal::UnfitValue => 6,
            Refusal::OverLimit => 7,
            Refusal::RegisterTooShort => 8,
            Refusal::NoRegister => 11,
            Refusal::QueryTooLong => 12,
            Refusal::QueryUnread => 13,
            Refusal::TooDeep => 14,
            Refusal::BadName => 15,
            Refusal::BadPiece => 16,
            Refusal::Undeclared => 17,
            Refusal::UnfitPiece => 18,
            Refusal::TooManyNodes => 19,
            Refusal::QueryTooShort => 20,
            Refusal::NoQuery => 21,
            Refusal::NoAskedRegister => 22,
            Refusal::Mismatch => 23,
            Refusal::MarksTooShort => 24,
            Refusal::KindsClash => 32,
            Refusal::TreeTooShort => 33,
            Refusal::NoTree => 34,
        }
    }
}

impl From<Refusal> for i32 {
    ghost from_gives = { λ r n. n ≡ pos (refusal_number r) };

    fn from(refusal: Refusal) -> i32 {
        i32::from(refusal.number())
    }
}
