// The two kinds of claim as claims: to an odd tenth or fen, by remainder, and to the next tenth, by fraction.
ghost use Rattle.std.specs.Prelude.{◌≡◌, ◌+◌, None};
ghost use Rattle.sharing.specs.Kinds.{by_remainder, by_fraction, next_tenth};
ghost use Rattle.std.proofs.Common.{rules};
ghost use Rattle.sharing.specs.Fractions.{one_way, chain};

use super::claim::Claim;
use super::fraction::Fraction;
use super::remainder::Remainder;

impl Claim for Remainder {
    ghost ahead = { by_remainder };

    ghost holder = { λ x. x.number };

    ghost next = { λ _. None };

    ghost ranks = { Prim.search rules };

    ghost settles = { Prim.search rules };

    ghost later = { Prim.search rules };

    ghost numbered = { Prim.search rules };

    fn before(&self, other: &Remainder) -> bool {
        other.part < self.part || other.part == self.part && self.number < other.number
    }

    fn number(&self) -> usize {
        self.number
    }

    fn renewed(&self) -> Option<Remainder> {
        None
    }
}

impl Claim for Fraction {
    ghost ahead = { by_fraction };

    ghost holder = { λ x. x.number };

    ghost next = { next_tenth };

    ghost ranks = { record {
      one_way = λ x y h. one_way (x.had + 1) x.weight x.number (y.had + 1) y.weight y.number h;
      chain = λ x y z h k. chain (x.had + 1) x.weight x.number (y.had + 1) y.weight y.number (z.had + 1) z.weight z.number x.heavy y.heavy z.heavy h k;
    } };

    ghost settles = { Prim.search rules };

    ghost later = { Prim.search rules };

    ghost numbered = { Prim.search rules };

    fn before(&self, other: &Fraction) -> bool {
        let mine = (u64::from(self.had) + 1) * u64::from(other.weight);
        let theirs = (u64::from(other.had) + 1) * u64::from(self.weight);
        mine < theirs || mine == theirs && self.number < other.number
    }

    fn number(&self) -> usize {
        self.number
    }

    fn renewed(&self) -> Option<Fraction> {
        // A copy that is changed: `..*self` is refused beside a ghost field.
        let mut follower = *self;
        follower.had = self.had.saturating_add(1);
        (follower.had < self.room).then_some(follower)
    }
}
