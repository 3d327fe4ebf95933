// A seller's capacity: 1 to 2000 megawatts.
// A type of its own beside `Power`: one bounded number for both would lose the unit that the field names.
ghost use Rattle.std.specs.Prelude.{◌≡◌, ◌≤◌, MatchOption};
ghost use Rattle.sellers.specs.Curves.{Weighs};

#[derive(Clone, Copy)]
pub struct Capacity {
    megawatts: u16,
    ghost some: { 1 ≤ megawatts },
    ghost most: { megawatts ≤ 2000 },
}

impl Capacity {
    // The capacity of so many megawatts, or none where that is 0 or above 2000.
    pub fn new(megawatts: u16) -> Option<Capacity>
        ensures { MatchOption result (Weighs megawatts → ⊥) (λ c. Weighs megawatts × (c.megawatts ≡ megawatts)) }
    {
        if megawatts == 0 || megawatts > 2000 {
            return None;
        }
        Some(Capacity { megawatts })
    }

    pub fn megawatts(self) -> u16
        ensures value { result ≡ self.megawatts }
        ensures weighs { Weighs result }
    {
        self.megawatts
    }
}
