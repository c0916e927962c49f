// What a call gives back: nothing more, or a refusal, each with its number of document 01, 'Numbers given back'.
ghost use Rattle.std.specs.Prelude.{◌≡◌};
ghost use Rattle.limits.specs.Outcome.{refusal_number, number_of};

// Why a call is refused, or answered by nothing.
#[derive(Clone, Copy, Debug, PartialEq, Eq)]
pub enum Refusal {
    Silent,
    Malformed,
    TableNotWellFormed,
    AnswerShort,
    SpontaneousShort,
    BadProposal,
    InvalidPlan,
    UnknownTypeOrAddress,
    StationNotPlanned,
    GroupOutOfRange,
    CounterGroupOutOfRange,
    NotCounter,
    AddressTwice,
    AlreadyRegistered,
    NotRegistered,
    CeilingReached,
    NotAdmitted,
}

impl Refusal {
    // Document 01's number.
    pub fn number(self) -> u32
        ensures { result ≡ refusal_number self }
    {
        match self {
            Refusal::Silent => 1,
            Refusal::Malformed => 2,
            Refusal::TableNotWellFormed => 3,
            Refusal::AnswerShort => 4,
            Refusal::SpontaneousShort => 5,
            Refusal::BadProposal => 6,
            Refusal::InvalidPlan => 10,
            Refusal::UnknownTypeOrAddress => 11,
            Refusal::StationNotPlanned => 12,
            Refusal::GroupOutOfRange => 13,
            Refusal::CounterGroupOutOfRange => 14,
            Refusal::NotCounter => 15,
            Refusal::AddressTwice => 16,
            Refusal::AlreadyRegistered => 17,
            Refusal::NotRegistered => 18,
            Refusal::CeilingReached => 19,
            Refusal::NotAdmitted => 20,
        }
    }
}

// Document 01's number of an outcome: 0 where the call was done.
pub fn number_of(outcome: Result<(), Refusal>) -> u32
    ensures { result ≡ number_of outcome }
{
    match outcome {
        Ok(_) => 0,
        Err(refusal) => refusal.number(),
    }
}
