// What is wrong with an offer.
ghost use Rattle.std.specs.Prelude.{◌≡◌};
ghost use Rattle.sellers.specs.Faults.{fault_number};

// Each has the number that a refusal is known by.
#[derive(Clone, Copy, PartialEq, Eq, Debug)]
pub enum OfferFault {
    // Not one to eight steps.
    StepCount = 8,
    // A price above what it may be.
    PriceAboveCap = 9,
    // A price below the one before it.
    PriceFalls = 10,
    // A step of no power, or steps that pass the capacity.
    StepPower = 11,
}

impl OfferFault {
    // The number that a refusal is known by.
    pub fn number(self) -> u8
        ensures { result ≡ fault_number self }
    {
        self as u8
    }
}
