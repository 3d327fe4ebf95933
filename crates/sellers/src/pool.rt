// A pool: offers up to eight steps of price and power.
ghost use Rattle.std.specs.Prelude.{◌≡◌, take};
ghost use Rattle.sellers.specs.Steps.{pool_power};
ghost use Rattle.sellers.specs.Stepped.{pool_lawful};

use crate::capacity::Capacity;
use crate::seller::Seller;
use crate::steps::StepOffer;
use sharing::party::Party;

#[derive(Clone, Copy)]
pub struct Pool {
    capacity: Capacity,
    offer: StepOffer,
}

impl Pool {
    pub fn new(capacity: Capacity, offer: StepOffer) -> Pool
        ensures { (result.capacity ≡ capacity) × (result.offer ≡ offer) }
    {
        Pool { capacity, offer }
    }
}

// The weight is the capacity.
impl Party for Pool {
    ghost heft = { λ p. p.capacity.megawatts };

    fn weight(&self) -> u32 {
        u32::from(self.capacity.megawatts())
    }
}

// It offers the steps priced so.
impl Seller for Pool {
    ghost power = { λ p. pool_power (take p.offer.count p.offer.steps) };

    ghost lawful = { λ p. pool_lawful (take p.offer.count p.offer.steps) p.offer.held };

    fn curve(&self, price: u8) -> u32 {
        self.offer.power(price.min(60))
    }
}
