// The sums of a closed day.
ghost use Rattle.std.specs.Prelude.{◌≡◌};
ghost use Rattle.day.specs.Bills.{fees, charges, penalties, refunds};

use crate::closed::ClosedDay;
use crate::sums::in_day;

// Fees, charges, penalties and refunds of a whole day, in fen.
#[derive(Clone, Copy)]
pub struct Totals {
    pub fees: u64,
    pub charges: u64,
    pub penalties: u64,
    pub refunds: u64,
}

impl ClosedDay {
    // The sums over the whole day: fees equal charges, and penalties equal refunds.
    pub fn totals(&self) -> Totals
        ensures fees { result.fees ≡ fees self.now.book }
        ensures charges { result.charges ≡ charges self.now.book }
        ensures penalties { result.penalties ≡ penalties self.now.book }
        ensures refunds { result.refunds ≡ refunds self.now.book }
        ensures balance { (result.fees ≡ result.charges) × (result.penalties ≡ result.refunds) }
    {
        let fees = in_day(64, |p, i| self.fee(i, 0, p) + self.fee(i, 1, p));
        let charges = in_day(64, |p, j| self.plant_charge(j, p))
            + in_day(8, |p, a| self.split(a, p).1)
            + in_day(8, |p, a| self.uncarried_charge(a, p));
        let penalties = in_day(64, |p, i| self.penalty(i, p));
        let refunds = in_day(64, |p, i| self.refund(i, p))
            + in_day(8, |p, a| self.uncarried_refund(a, p));
        Totals {
            fees: fees as u64,
            charges: charges as u64,
            penalties: penalties as u64,
            refunds: refunds as u64,
        }
    }
}
