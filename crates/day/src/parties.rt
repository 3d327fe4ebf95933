// Who takes part in a share-out of the day: areas by want, units by reading, plants by net energy.
// Three types, since a row of areas, of units or of plants is no row of the others: each weighs by a figure of its own.
use sharing::party::Party;

// An area, by what it wants in a round.
#[derive(Clone, Copy)]
pub struct Buyer {
    pub want: u32,
}

impl Party for Buyer {
    ghost heft = { λ b. b.want };

    fn weight(&self) -> u32 {
        self.want
    }
}

// A unit, by its reading in a period; 0 where it has no part in the share-out.
#[derive(Clone, Copy)]
pub struct Payee {
    pub reading: u32,
}

impl Party for Payee {
    ghost heft = { λ p. p.reading };

    fn weight(&self) -> u32 {
        self.reading
    }
}

// A plant, by its net energy in a period; 0 where it has no part in the share-out.
#[derive(Clone, Copy)]
pub struct Producer {
    pub net: u32,
}

impl Party for Producer {
    ghost heft = { λ p. p.net };

    fn weight(&self) -> u32 {
        self.net
    }
}
