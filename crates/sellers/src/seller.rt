// A seller: a party that also has a curve.
ghost use Rattle.std.specs.Prelude.{◌≡◌, ℕ, min, None, Some};
ghost use Rattle.std.proofs.Common.{arith};
ghost use Rattle.sellers.specs.Curves.{Lawful, Weighs};
ghost use Rattle.sellers.specs.Slots.{slot_power};

use sharing::party::Party;

pub trait Seller: Party {
    // The power offered at a price or less, in tenths of a megawatt.
    ghost power: { Self → ℕ → ℕ };

    // The power offered at `price` or less; above 60, what is offered at 60.
    fn curve(&self, price: u8) -> u32
        ensures value { result ≡ power self.now (min price 60) }
        ensures vouches { Weighs (Self.Party.heft self.now) };

    ghost lawful: { (s : Self) → Lawful (power s) };
}

// A place that may stand empty: nothing is offered where nobody stands.
impl<S: Seller> Seller for Option<S> {
    ghost power = { slot_power S.Seller.power };

    ghost lawful = { elim [
      | None ↦ record { rises = λ p q below within. omega arith; capped = omega arith }
      | Some s ↦ S.Seller.lawful s
    ] };

    fn curve(&self, price: u8) -> u32 {
        self.as_ref().map_or(0, |seller| seller.curve(price))
    }
}
