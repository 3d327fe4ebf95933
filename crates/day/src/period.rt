// What is read of one period: its rounds, and a seller's plan, call, base and reading in it.
ghost use Rattle.std.specs.Prelude.{◌≡◌, ◌≤◌};
ghost use Rattle.day.specs.Bills.{plan_in, reading_in};
ghost use Rattle.day.specs.Kinds.{number_of};
ghost use Rattle.day.specs.Reading.{round_at, plan_at, cleared_at, call_in};
ghost use Rattle.day.specs.Terms.{base_from, called_before};

use crate::book::{Cleared, Period, Round};
use crate::round_kind::RoundKind;

// What a seller was called for in a round: 0 where it is not cleared, or there is no such seller.
pub(crate) fn called_in(cleared: Option<Cleared>, i: usize) -> u32
    ensures { result ≡ call_in cleared i }
{
    cleared.and_then(|of| of.calls.get(i).copied()).unwrap_or(0)
}

// A round and a seller are two parameters: each is asked for without the other too.
impl Period {
    pub(crate) fn round(&self, kind: RoundKind) -> &Round
        ensures { result.now ≡ round_at self.now (number_of kind) }
    {
        &self.rounds[kind.index()]
    }

    // The base of a unit in a round as planned; none where it was not.
    fn planned(&self, kind: RoundKind, i: usize) -> Option<u16>
        ensures { result ≡ plan_at self.now (number_of kind) i }
    {
        self.round(kind).plans.get(i).copied().flatten()
    }

    // What a seller was called for in a round.
    pub(crate) fn called(&self, kind: RoundKind, i: usize) -> u32
        ensures { result ≡ call_in (cleared_at self.now (number_of kind)) i }
    {
        called_in(self.round(kind).cleared, i)
    }

    // The base of a unit in a round: as planned for it; if not, 0 day-ahead, and intraday the day-ahead base less the call.
    pub(crate) fn base(&self, kind: RoundKind, i: usize) -> u16
        ensures { result ≡ base_from (plan_at self.now) (call_in (cleared_at self.now 0)) (number_of kind) i }
    {
        let day_ahead = self.planned(RoundKind::DayAhead, i).unwrap_or(0);
        let called = self.called(RoundKind::DayAhead, i);
        self.planned(kind, i).unwrap_or(match kind {
            RoundKind::DayAhead => 0,
            RoundKind::Intraday => u32::from(day_ahead).saturating_sub(called) as u16,
        })
    }

    // What a pool has been called for before a round.
    pub(crate) fn before(&self, kind: RoundKind, i: usize) -> u32
        ensures { result ≡ called_before (call_in (cleared_at self.now 0)) (number_of kind) i }
    {
        match kind {
            RoundKind::DayAhead => 0,
            RoundKind::Intraday => self.called(RoundKind::DayAhead, i),
        }
    }

    // A unit's plan: its intraday base less its intraday call.
    pub(crate) fn plan(&self, i: usize) -> u32
        ensures value { result ≡ plan_in self.now i }
        ensures most { result ≤ 65535 }
    {
        let base = self.base(RoundKind::Intraday, i);
        u32::from(base).saturating_sub(self.called(RoundKind::Intraday, i))
    }

    // A unit's reading: as given, or 25 kWh for each tenth of its plan.
    pub(crate) fn reading(&self, i: usize) -> u32
        ensures { result ≡ reading_in self.now i }
    {
        self.units
            .get(i)
            .copied()
            .flatten()
            .unwrap_or(25 * self.plan(i))
    }
}
