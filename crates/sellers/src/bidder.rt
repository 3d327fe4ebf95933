// A seller of either kind, so that one slice holds a round's sellers.
// An enum, whose methods ask the kind at hand: a `dyn Seller` would hold neither kind without heap, and is not `Copy`.
ghost use Rattle.sellers.specs.Bidders.{heft_of, power_of};
ghost use Rattle.std.specs.Prelude.{take};
ghost use Rattle.sellers.specs.declared.bidder.Bidder.TheVariants.{Thermal, Pooled};
ghost use Rattle.sellers.specs.Reached.{unit_lawful};
ghost use Rattle.sellers.specs.Stepped.{pool_lawful};

use crate::pool::Pool;
use crate::seller::Seller;
use crate::unit::Unit;
use sharing::party::Party;

#[derive(Clone, Copy)]
pub enum Bidder {
    Thermal(Unit),
    Pooled(Pool),
}

impl Party for Bidder {
    ghost heft = { heft_of };

    fn weight(&self) -> u32 {
        match self {
            Bidder::Thermal(unit) => unit.weight(),
            Bidder::Pooled(pool) => pool.weight(),
        }
    }
}

impl Seller for Bidder {
    ghost power = { power_of };

    ghost lawful = { elim [
      | Thermal u ↦ unit_lawful u.capacity.megawatts u.floor.tenths u.base.tenths u.prices.prices u.base.most u.prices.capped
      | Pooled p ↦ pool_lawful (take p.offer.count p.offer.steps) p.offer.held
    ] };

    fn curve(&self, price: u8) -> u32 {
        match self {
            Bidder::Thermal(unit) => unit.curve(price),
            Bidder::Pooled(pool) => pool.curve(price),
        }
    }
}
