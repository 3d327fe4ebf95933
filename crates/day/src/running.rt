// A day that runs: it takes plans, wants, clearings and readings.
// Plain numbers, a round among them: any may be handed in, and one that there is not is refused.
ghost use Rattle.std.specs.Prelude.{◌≡◌};
ghost use Rattle.day.specs.Calls as calls;
ghost use Rattle.day.specs.Calls.{Does};
ghost use Rattle.day.specs.Balance.{Isolated};
ghost use Rattle.day.specs.Law.{EveryDay, Kept};
ghost use Rattle.day.specs.Only.{OnlyDay, SameBills};
ghost use Rattle.day.specs.Reached.{Opened, Ran, Accounted};

use crate::book::Book;
use crate::checks::{
    not_called, open_round, period_at, readable, settled, tradable, unit_at, within,
    within_capacity,
};
use crate::closed::ClosedDay;
use crate::faults::Fault;
use crate::open_round::OpenRound;
use crate::round_kind::RoundKind;

#[derive(Drop)]
pub struct RunningDay {
    book: Book,
    ghost reached: { Ran book },
}

impl RunningDay {
    pub(crate) fn start(book: Book) -> RunningDay
        requires { Opened book }
        ensures { result.book ≡ book }
    {
        RunningDay { book }
    }

    // Plans a unit's base in a round of a period. A later plan replaces the earlier.
    pub fn plan(&mut self, round: u8, seller: u8, period: u8, base: u16) -> Result<(), Fault>
        ensures { Does period (calls.plan round seller base) self.old.book result self.new.book }
    {
        let i = within(seller, 63, Fault::Seller)?;
        let capacity = unit_at(&self.book.sellers, i)?;
        let kind = RoundKind::try_from(round)?;
        let at = within(period, 95, Fault::Period)?;
        within_capacity(base, capacity, Fault::Base)?;
        let of = period_at(&self.book.periods, at);
        open_round(of, kind)?;
        not_called(of, kind, i)?;
        self.book.periods[at].rounds[kind.index()].plans[i] = Some(base);
        Ok(())
    }

    // Declares what an area wants in a round of a period. A later want replaces the earlier.
    pub fn want(&mut self, round: u8, area: u8, period: u8, power: u32) -> Result<(), Fault>
        ensures { Does period (calls.want round area power) self.old.book result self.new.book }
    {
        let a = within(area, 7, Fault::Area)?;
        let kind = RoundKind::try_from(round)?;
        let at = within(period, 95, Fault::Period)?;
        tradable(power)?;
        open_round(period_at(&self.book.periods, at), kind)?;
        self.book.periods[at].rounds[kind.index()].wants[a] = power;
        Ok(())
    }

    // Takes a unit's reading in a period. A later reading replaces the earlier.
    pub fn read_unit(&mut self, seller: u8, period: u8, energy: u32) -> Result<(), Fault>
        ensures { Does period (calls.read_unit seller energy) self.old.book result self.new.book }
    {
        let i = within(seller, 63, Fault::Seller)?;
        unit_at(&self.book.sellers, i)?;
        let at = within(period, 95, Fault::Period)?;
        settled(period_at(&self.book.periods, at))?;
        readable(energy)?;
        self.book.periods[at].units[i] = Some(energy);
        Ok(())
    }

    // Takes a plant's reading in a period. A later reading replaces the earlier.
    pub fn read_plant(&mut self, plant: u8, period: u8, energy: u32) -> Result<(), Fault>
        ensures { Does period (calls.read_plant plant energy) self.old.book result self.new.book }
    {
        let j = within(plant, 63, Fault::Plant)?;
        self.book.plants[j].ok_or(Fault::NoPlant)?;
        let at = within(period, 95, Fault::Period)?;
        readable(energy)?;
        self.book.periods[at].plants[j] = energy;
        Ok(())
    }

    // Clears a round of a period.
    pub fn clear(&mut self, round: u8, period: u8) -> Result<(), Fault>
        ensures { Does period (calls.clear round) self.old.book result self.new.book }
    {
        let kind = RoundKind::try_from(round)?;
        let at = within(period, 95, Fault::Period)?;
        let of = period_at(&self.book.periods, at);
        open_round(of, kind)?;
        let round = OpenRound {
            sellers: &self.book.sellers,
            period: of,
            kind,
        };
        let cleared = round.clear();
        self.book.periods[at].rounds[kind.index()].cleared = Some(cleared);
        Ok(())
    }

    // Closes the day. The law over all runs stands here: whatever calls a day has had, in any number and order. They alone settle the day.
    pub fn close(self) -> ClosedDay
        ensures book { result.book ≡ self.book }
        ensures law { EveryDay }
        ensures this { Accounted result.book }
        ensures kept { Kept }
        ensures isolated { Isolated }
        ensures only { OnlyDay }
        ensures bills { SameBills }
    {
        let RunningDay { book } = self;
        ClosedDay { book }
    }
}
