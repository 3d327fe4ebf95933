// The producers' share of a charge; the users bear the rest.
ghost use Rattle.std.specs.Prelude.{◌≡◌, ◌+◌, ◌<◌, ◌≤◌, MatchOption};
ghost use Rattle.money.specs.Money.{producers_of, users_of};

// A type of its own: one bounded number for it and the sellers' powers would lose the unit that the field names.
#[derive(Clone, Copy)]
pub struct Share {
    thousandths: u16,
    ghost within: { thousandths ≤ 1000 },
}

impl Share {
    // The share of so many thousandths, or none where that is above 1000.
    pub fn new(thousandths: u16) -> Option<Share>
        ensures { MatchOption result (1000 < thousandths) (λ s. (thousandths ≤ 1000) × (s.thousandths ≡ thousandths)) }
    {
        if thousandths > 1000 {
            return None;
        }
        Some(Share { thousandths })
    }

    pub fn thousandths(self) -> u16
        ensures value { result ≡ self.thousandths }
        ensures within { result ≤ 1000 }
    {
        self.thousandths
    }
}

// The producers' part of a charge, rounded down, and the users' part.
pub fn split(share: Share, charge: u64) -> (u64, u64)
    ensures producers { result.0 ≡ producers_of share.thousandths charge }
    ensures users { result.1 ≡ users_of share.thousandths charge }
    ensures adds { result.0 + result.1 ≡ charge }
{
    let product = u128::from(share.thousandths) * u128::from(charge);
    let producers = (product / 1000) as u64;
    (producers, charge - producers)
}
