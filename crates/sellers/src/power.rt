// A power of at most 20,000 tenths of a megawatt.
// A type of its own beside `Capacity`: one bounded number for both would lose the unit that the field names.
ghost use Rattle.std.specs.Prelude.{◌≡◌, ◌-◌, ◌<◌, ◌≤◌, MatchOption};

#[derive(Clone, Copy)]
pub struct Power {
    tenths: u16,
    ghost most: { tenths ≤ 20000 },
}

impl Power {
    // The power of so many tenths, or none where that is above 20,000.
    pub fn new(tenths: u16) -> Option<Power>
        ensures { MatchOption result (20000 < tenths) (λ p. (tenths ≤ 20000) × (p.tenths ≡ tenths)) }
    {
        if tenths > 20000 {
            return None;
        }
        Some(Power { tenths })
    }

    // No power.
    pub fn zero() -> Power
        ensures { result.tenths ≡ 0 }
    {
        Power { tenths: 0 }
    }

    pub fn tenths(self) -> u16
        ensures value { result ≡ self.tenths }
        ensures most { result ≤ 20000 }
    {
        self.tenths
    }

    // The power less `by`, or 0.
    pub fn less(self, by: u32) -> Power
        ensures { result.tenths ≡ self.tenths - by }
    {
        let tenths = u32::from(self.tenths).saturating_sub(by) as u16;
        Power { tenths }
    }
}
