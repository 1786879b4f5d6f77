// The reasons of the paper, by name: their numbers are the paper's, and the names those of include/pag.h.
#![tactic(auto)]

ghost use Rattle.std.specs.Prelude.{◌≡◌};
ghost use Rattle.reasons.specs.Numbers.{number_of};

// Why a call is refused. 8 is not given: a long header is taken with any length (C-11).
#[derive(Clone, Copy, Debug, PartialEq, Eq)]
pub enum Reason {
    LevelAbove1023 = 1,
    FewerThan9Bytes = 2,
    SignatureWrong = 3,
    VersionNot1 = 4,
    LengthFieldWrong = 5,
    HeaderCut = 6,
    ListWithoutEnd = 7,
    BodyLongerThanList = 9,
    EndWithABody = 10,
    BytesAfterEnd = 11,
    ContainerAtDepth8 = 12,
    ItemPastTheBody = 13,
    Spelling = 14,
    SkippedBitNotZero = 15,
    UnlistedValue = 16,
    CountOutsideItsRange = 17,
    BodyNotUsedUp = 18,
    TableTooShort = 19,
    NoFileHasThisTable = 20,
    OutputTooShort = 21,
    KNotBelowTheCount = 22,
    IndexTooShort = 23,
    OrderUnknown = 24,
    TallyFull = 25,
    TimeTooLate = 26,
    TimesDoNotRise = 27,
    FrameInBezier = 28,
    StepBeyondSingles = 29,
    NotTheIndex = 30,
}

impl From<Reason> for u32 {
    ghost from_gives = { λ reason number. number ≡ number_of reason };

    // The paper's number.
    fn from(reason: Reason) -> u32 {
        reason as u32
    }
}
