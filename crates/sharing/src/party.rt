// A party: anything that has a weight.
ghost use Rattle.std.specs.Option.{option_map_or};
ghost use Rattle.std.specs.Prelude.{◌≡◌, ℕ};

pub trait Party {
    // The weight that a share-out goes by.
    ghost heft: { Self → ℕ };

    fn weight(&self) -> u32
        ensures { result ≡ heft self.now };
}

// A place that may stand empty: the party's own weight, and 1 where nobody stands, the least that there is.
impl<P: Party> Party for Option<P> {
    ghost heft = { λ place. option_map_or P.Party.heft place 1 };

    fn weight(&self) -> u32 {
        self.as_ref().map_or(1, |party| party.weight())
    }
}

// A plain number weighs itself, so that a row of powers or of wants has a total.
impl Party for u32 {
    ghost heft = { λ n. n };

    fn weight(&self) -> u32 {
        *self
    }
}
