// The two rounds of a period.
ghost use Rattle.std.specs.Prelude.{◌≡◌, ◌<◌, nat_lt};
ghost use Rattle.day.specs.Calls.{Tested};
ghost use Rattle.day.specs.Kinds.{number_of};
ghost use Rattle.day.specs.declared.faults.Fault.TheVariants as refused;

use crate::faults::Fault;

#[derive(Clone, Copy, PartialEq, Eq, Debug)]
pub(crate) enum RoundKind {
    DayAhead = 0,
    Intraday = 1,
}

// The round of a number, refused above 1.
impl TryFrom<u8> for RoundKind {
    type Error = Fault;

    ghost try_from_gives = { λ number r. Tested (nat_lt 1 number) refused.Round (λ kind. number_of kind ≡ number) r };

    fn try_from(number: u8) -> Result<RoundKind, Fault> {
        match number {
            0 => Ok(RoundKind::DayAhead),
            1 => Ok(RoundKind::Intraday),
            _ => Err(Fault::Round),
        }
    }
}

impl RoundKind {
    // Its place among the rounds of a period.
    pub(crate) fn index(self) -> usize
        ensures value { result ≡ number_of self }
        ensures low { result < 2 }
    {
        self as usize
    }
}
