// Why a call was refused.
ghost use Rattle.std.specs.Prelude.{◌≡◌};
ghost use Rattle.day.specs.Faults.{refusal};
ghost use Rattle.day.specs.declared.faults.Fault.TheVariants as refused;

use sellers::fault::OfferFault;

#[derive(Clone, Copy, PartialEq, Eq, Debug)]
pub enum Fault {
    // The producers' share is above 1000.
    Share,
    // The seller's number is above 63.
    Seller,
    // The seller is enrolled already.
    SellerTwice,
    // The seller is not enrolled as the kind meant.
    NotSuch,
    // The capacity is 0 or above 2,000.
    Capacity,
    // The floor is above ten times the capacity.
    Floor,
    // The offer is wrong.
    Offer(OfferFault),
    // The area's number is above 7.
    Area,
    // The plant's number is above 63.
    Plant,
    // The plant is enrolled already.
    PlantTwice,
    // The plant is not enrolled.
    NoPlant,
    // The round is above 1.
    Round,
    // The period is above 95.
    Period,
    // The base is above ten times the capacity.
    Base,
    // The want is no multiple of 500, or above 200,000.
    Want,
    // That round of that period is cleared.
    Cleared,
    // A round that has to be cleared before is not.
    NotCleared,
    // The unit was called day-ahead.
    Called,
    // The energy is above 1,000,000.
    Energy,
}

// The refusal of a wrong offer.
impl From<OfferFault> for Fault {
    ghost from_gives = { λ wrong fault. fault ≡ refused.Offer wrong };

    fn from(wrong: OfferFault) -> Fault {
        Fault::Offer(wrong)
    }
}

impl Fault {
    // The number that the refusal is known by: a wrong offer has that of its own fault, so no cast gives it.
    pub fn number(self) -> u8
        ensures { result ≡ refusal self }
    {
        match self {
            Fault::Share => 1,
            Fault::Seller => 2,
            Fault::SellerTwice => 3,
            Fault::NotSuch => 4,
            Fault::Capacity => 5,
            Fault::Floor => 6,
            Fault::Offer(fault) => fault.number(),
            Fault::Area => 12,
            Fault::Plant => 13,
            Fault::PlantTwice => 14,
            Fault::NoPlant => 15,
            Fault::Round => 16,
            Fault::Period => 17,
            Fault::Base => 18,
            Fault::Want => 19,
            Fault::Cleared => 20,
            Fault::NotCleared => 21,
            Fault::Called => 22,
            Fault::Energy => 23,
        }
    }
}
