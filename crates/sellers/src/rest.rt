// What is left of a seller: its curve less a power that it has been called for already.
ghost use Rattle.std.specs.Prelude.{◌-◌};
ghost use Rattle.std.proofs.Common.{arith};

use crate::seller::Seller;
use sharing::party::Party;

#[derive(Clone, Copy)]
pub struct Rest<S> {
    pub seller: S,
    pub called: u32,
}

// The weight is the seller's own.
impl<S: Party> Party for Rest<S> {
    ghost heft = { λ r. S.Party.heft r.seller };

    fn weight(&self) -> u32 {
        self.seller.weight()
    }
}

impl<S: Seller> Seller for Rest<S> {
    ghost power = { λ r q. S.Seller.power r.seller q - r.called };

    ghost lawful = { λ s.
        let law = S.Seller.lawful s.seller in
        record { rises = λ p q below within. omega (arith, law.rises p q below within); capped = omega (arith, law.capped) } };

    fn curve(&self, price: u8) -> u32 {
        self.seller.curve(price).saturating_sub(self.called)
    }
}
