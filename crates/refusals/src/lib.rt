// Why a call is refused: each reason by a name of its own. C is told their numbers.
#![tactic(auto)]

ghost use Rattle.std.specs.Prelude.{◌≡◌, IfOk, IfErr};
ghost use Rattle.refusals.specs.Numbers.{code, code_of, OfNoReason};

#[derive(Clone, Copy, Debug, PartialEq, Eq)]
pub enum Refusal {
    NotLawful,
    Length,
    Stamp,
    Room,
    Word,
    TooFew,
    NoPolynomials,
    NoSecret,
    LargeWord,
    Check,
    Mark,
    Header,
    Tail,
    Older,
    OtherBytes,
    NotOurs,
    NothingHeld,
    ManyDifferences,
    OldKeepers,
    StampNotAbove,
}

impl Refusal {
    // Its number, from 1 on.
    pub fn number(self) -> u32
        ensures { result ≡ code self }
    {
        match self {
            Refusal::NotLawful => 1,
            Refusal::Length => 2,
            Refusal::Stamp => 3,
            Refusal::Room => 4,
            Refusal::Word => 5,
            Refusal::TooFew => 6,
            Refusal::NoPolynomials => 7,
            Refusal::NoSecret => 8,
            Refusal::LargeWord => 9,
            Refusal::Check => 10,
            Refusal::Mark => 11,
            Refusal::Header => 12,
            Refusal::Tail => 13,
            Refusal::Older => 14,
            Refusal::OtherBytes => 15,
            Refusal::NotOurs => 16,
            Refusal::NothingHeld => 17,
            Refusal::ManyDifferences => 18,
            Refusal::OldKeepers => 19,
            Refusal::StampNotAbove => 20,
        }
    }
}

// The reason that has a number, if one has.
impl TryFrom<u32> for Refusal {
    type Error = ();

    fn try_from(number: u32) -> Result<Refusal, ()>
        ensures ok { IfOk result (λ refusal. code refusal ≡ number) }
        ensures err { IfErr result (λ _. OfNoReason number) }
    {
        match number {
            1 => Ok(Refusal::NotLawful),
            2 => Ok(Refusal::Length),
            3 => Ok(Refusal::Stamp),
            4 => Ok(Refusal::Room),
            5 => Ok(Refusal::Word),
            6 => Ok(Refusal::TooFew),
            7 => Ok(Refusal::NoPolynomials),
            8 => Ok(Refusal::NoSecret),
            9 => Ok(Refusal::LargeWord),
            10 => Ok(Refusal::Check),
            11 => Ok(Refusal::Mark),
            12 => Ok(Refusal::Header),
            13 => Ok(Refusal::Tail),
            14 => Ok(Refusal::Older),
            15 => Ok(Refusal::OtherBytes),
            16 => Ok(Refusal::NotOurs),
            17 => Ok(Refusal::NothingHeld),
            18 => Ok(Refusal::ManyDifferences),
            19 => Ok(Refusal::OldKeepers),
            20 => Ok(Refusal::StampNotAbove),
            _ => Err(()),
        }
    }
}

// The number of a call that is refused, and 0 of one that is not.
pub fn number<T: Drop>(outcome: Result<T, Refusal>) -> u32
    ensures { result ≡ code_of outcome }
{
    match outcome {
        Ok(_) => 0,
        Err(refusal) => refusal.number(),
    }
}
