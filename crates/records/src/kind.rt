// The kinds of record, and the stage of the day that each is for.
ghost use Rattle.std.specs.Prelude.{◌≡◌};
ghost use Rattle.records.specs.Marks.{NamesKind, stage_for};

use crate::fault::RecordFault;

// A type beside `Record`: a kind is known, and its stage looked at, before there is a record.
#[derive(Clone, Copy)]
pub enum Kind {
    Open,
    EnrolUnit,
    EnrolPool,
    EnrolPlant,
    OfferUnit,
    OfferPool,
    CloseOffers,
    Plan,
    Want,
    Clear,
    ReadUnit,
    ReadPlant,
    CloseDay,
}

#[derive(Clone, Copy, PartialEq, Eq)]
pub enum Stage {
    Unopened,
    Opening,
    Running,
    Closed,
}

// The kind that a mark names.
impl TryFrom<[u8; 2]> for Kind {
    type Error = RecordFault;

    ghost try_from_gives = { NamesKind };

    fn try_from(mark: [u8; 2]) -> Result<Kind, RecordFault> {
        match mark {
            [b'D', b'A'] => Ok(Kind::Open),
            [b'E', b'U'] => Ok(Kind::EnrolUnit),
            [b'E', b'P'] => Ok(Kind::EnrolPool),
            [b'E', b'W'] => Ok(Kind::EnrolPlant),
            [b'O', b'U'] => Ok(Kind::OfferUnit),
            [b'O', b'P'] => Ok(Kind::OfferPool),
            [b'C', b'O'] => Ok(Kind::CloseOffers),
            [b'B', b'A'] => Ok(Kind::Plan),
            [b'W', b'A'] => Ok(Kind::Want),
            [b'C', b'L'] => Ok(Kind::Clear),
            [b'R', b'U'] => Ok(Kind::ReadUnit),
            [b'R', b'W'] => Ok(Kind::ReadPlant),
            [b'C', b'D'] => Ok(Kind::CloseDay),
            _ => Err(RecordFault::Unknown),
        }
    }
}

impl Kind {
    // The stage of the day that records of this kind are for.
    pub(crate) fn stage(self) -> Stage
        ensures { result ≡ stage_for self }
    {
        match self {
            Kind::Open => Stage::Unopened,
            Kind::EnrolUnit
            | Kind::EnrolPool
            | Kind::EnrolPlant
            | Kind::OfferUnit
            | Kind::OfferPool
            | Kind::CloseOffers => Stage::Opening,
            Kind::Plan
            | Kind::Want
            | Kind::Clear
            | Kind::ReadUnit
            | Kind::ReadPlant
            | Kind::CloseDay => Stage::Running,
        }
    }
}
