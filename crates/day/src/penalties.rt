// What a closed day answers of deviations, penalties and refunds: 0 where there is no such unit, area or period.
// Plain numbers, since any may be asked, and the private questions take the same.
ghost use Rattle.std.specs.Prelude.{◌≡◌, ℕ, ◌+◌, ◌^◌, ◌<◌, ◌≤◌, true, false, if◌then◌else◌, MatchOption};
ghost use Rattle.sharing.specs.Places.{at_place};
ghost use Rattle.sharing.specs.Shares.{share_of};
ghost use Rattle.day.specs.Bills.{in_area, unit_area, fines, payee, plan_of, reading_of, uncarried_refund};
ghost use Rattle.day.specs.Bills as bills;
ghost use Rattle.day.specs.Reading.{seller_at};
ghost use Rattle.day.specs.Terms.{is_unit};

use crate::bills::{area_of_unit, listed, payees};
use crate::closed::ClosedDay;
use money::deviation::{deviation, penalty};
use sharing::row::Row;
use sharing::share::share_out;
use sharing::shares::Shares;

// What a unit fed in during a period, in kWh, and what it had planned, in tenths of a megawatt.
#[derive(Clone, Copy)]
struct Output {
    reading: u32,
    plan: u32,
}

impl ClosedDay {
    // A unit's output in a period; none where it is no unit.
    fn output(&self, seller: u8, period: u8) -> Option<Output>
        ensures { MatchOption result (is_unit (seller_at self.now.book seller) ≡ false) (λ o. (is_unit (seller_at self.now.book seller) ≡ true) × (o.reading ≡ reading_of self.now.book period seller) × (o.plan ≡ plan_of self.now.book period seller)) }
    {
        listed(&self.book.sellers, usize::from(seller)).and_then(area_of_unit)?;
        let of = self.period(period);
        let i = usize::from(seller);
        Some(Output {
            reading: of.reading(i),
            plan: of.plan(i),
        })
    }

    // The deviation of a unit in a period: its reading less its planned energy, in kWh.
    pub fn deviation(&self, seller: u8, period: u8) -> i64
        ensures { result ≡ bills.deviation self.now.book period seller }
    {
        self.output(seller, period)
            .map_or(0, |of| deviation(of.reading, of.plan))
    }

    // The penalty of a unit in a period, in fen.
    pub fn penalty(&self, seller: u8, period: u8) -> u64
        ensures value { result ≡ bills.penalty self.now.book period seller }
        ensures most { result < 2 ^ 42 }
    {
        let calls = u64::from(self.call(seller, 0, period))
            + u64::from(self.call(seller, 1, period));
        self.output(seller, period)
            .map_or(0, |of| penalty(calls > 0, of.reading, of.plan))
    }

    // The penalty of a unit of the area; 0 for all others.
    fn fine(&self, seller: u8, area: u8, period: u8) -> u64
        ensures value { result ≡ (if in_area (unit_area (seller_at self.now.book seller)) area then bills.penalty self.now.book period seller else 0) }
        ensures most { result < 2 ^ 42 }
    {
        if listed(&self.book.sellers, usize::from(seller)).and_then(area_of_unit) == Some(area) {
            self.penalty(seller, period)
        } else {
            0
        }
    }

    // The penalties of an area's units in a period together, in fen.
    fn fines(&self, area: u8, period: u8) -> u64
        ensures { result ≡ fines self.now.book period area }
    {
        (0..64).map(|i| self.fine(i, area, period)).sum()
    }

    // The shares of an area's units with an offer in its penalties, by reading. Beside the shares of plants: the share-out they have in common is one function already.
    fn unit_shares(&self, area: u8, period: u8) -> Shares
        ensures parts { (i : ℕ) → i < 64 → at_place result.parts i ≡ share_of (payee self.now.book period area) (fines self.now.book period area) i }
        ensures uncarried { result.uncarried ≡ uncarried_refund self.now.book period area }
    {
        let parties = payees(&self.book.sellers, &self.period(period), area);
        share_out(self.fines(area, period), &Row::from(&parties))
    }

    // The refund of a unit in a period, in fen.
    pub fn refund(&self, seller: u8, period: u8) -> u64
        ensures { result ≡ bills.refund self.now.book period seller }
    {
        listed(&self.book.sellers, usize::from(seller))
            .and_then(area_of_unit)
            .map_or(0, |area| {
                self.unit_shares(area, period).parts[usize::from(seller)]
            })
    }

    // What no unit of an area is refunded of its penalties in a period, in fen.
    pub fn uncarried_refund(&self, area: u8, period: u8) -> u64
        ensures { result ≡ uncarried_refund self.now.book period area }
    {
        self.unit_shares(area, period).uncarried
    }
}
