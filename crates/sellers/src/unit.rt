// A thermal unit: offers to run lower than its base, down to its floor, tier by tier.
ghost use Rattle.std.specs.Prelude.{◌≡◌, ℕ, min};
ghost use Rattle.sellers.specs.Curves.{Weighs};
ghost use Rattle.sellers.specs.Tiers.{Reaches, down_to, unit_power};
ghost use Rattle.sellers.specs.Reached.{unit_lawful};

use crate::capacity::Capacity;
use crate::power::Power;
use crate::seller::Seller;
use crate::tiers::TierPrices;
use sharing::party::Party;

#[derive(Clone, Copy)]
pub struct Unit {
    capacity: Capacity,
    // The least power that it may run at.
    floor: Power,
    // The power that it runs at where it is not called.
    base: Power,
    prices: TierPrices,
}

impl Unit {
    pub fn new(capacity: Capacity, floor: Power, base: Power, prices: TierPrices) -> Unit
        ensures { (result.capacity ≡ capacity) × (result.floor ≡ floor) × (result.base ≡ base) × (result.prices ≡ prices) }
    {
        Unit {
            capacity,
            floor,
            base,
            prices,
        }
    }
}

// The weight is the capacity.
impl Party for Unit {
    ghost heft = { λ u. u.capacity.megawatts };

    fn weight(&self) -> u32 {
        u32::from(self.capacity.megawatts())
    }
}

// It offers to come down from its base to the lower edge of the tier reached, and no lower than its floor.
impl Seller for Unit {
    ghost power = { λ u. unit_power u.capacity.megawatts u.floor.tenths u.base.tenths u.prices.prices };

    ghost lawful = { λ u. unit_lawful u.capacity.megawatts u.floor.tenths u.base.tenths u.prices.prices u.base.most u.prices.capped };

    fn curve(&self, price: u8) -> u32
        ensures value { result ≡ unit_power self.now.capacity.megawatts self.now.floor.tenths self.now.base.tenths self.now.prices.prices (min price 60) }
        ensures vouches { Weighs self.now.capacity.megawatts }
        ensures reached { (k : ℕ) → Reaches self.now.prices.prices (min price 60) k → result ≡ down_to self.now.capacity.megawatts self.now.floor.tenths self.now.base.tenths k }
    {
        let tier = self.prices.tier(price.min(60));
        let edge = u16::from(7 - tier) * self.capacity.megawatts();
        let lowest = edge.max(self.floor.tenths());
        u32::from(self.base.tenths().saturating_sub(lowest))
    }
}
