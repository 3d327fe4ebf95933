// A pool's offer: one to eight steps of price and power.
ghost use Rattle.std.specs.Prelude.{◌≡◌, ◌≤◌, length, take, IfOk, IfErr, Some, None, MatchBool};
ghost use Rattle.sellers.specs.Faults.{StepsFault};
ghost use Rattle.sellers.specs.Steps.{Priced, Rising, Filled, Powered, whole, pool_power};

use crate::capacity::Capacity;
use crate::fault::OfferFault;
use crate::step::Step;

#[derive(Clone, Copy)]
pub struct StepOffer {
    // An array and a count: the offer is copied and takes no heap, and the kit's `ArrayVec` is not `Copy`.
    count: u8,
    // The offer, and after it steps that nothing reads.
    steps: [Step; 8],
    ghost begun: { 1 ≤ count },
    ghost ended: { count ≤ 8 },
    ghost priced: { Priced (take count steps) },
    ghost rising: { Rising (take count steps) },
    ghost filled: { Filled (take count steps) },
    ghost held: { whole (take count steps) ≤ 20000 },
}

impl StepOffer {
    // The offer of these steps by a pool of this capacity, or the first test that they fail.
    pub fn new(capacity: Capacity, steps: &[Step]) -> Result<StepOffer, OfferFault>
        ensures made { IfOk result (λ o. StepsFault capacity.megawatts steps.now None × (take o.count o.steps ≡ steps.now)) }
        ensures refused { IfErr result (λ f. StepsFault capacity.megawatts steps.now (Some f)) }
    {
        if steps.is_empty() || steps.len() > 8 {
            return Err(OfferFault::StepCount);
        }
        if !within_sixty(steps) {
            return Err(OfferFault::PriceAboveCap);
        }
        if !rising(steps) {
            return Err(OfferFault::PriceFalls);
        }
        if !powered(steps, capacity) {
            return Err(OfferFault::StepPower);
        }
        let count = steps.len() as u8;
        Ok(StepOffer {
            count,
            steps: eight(steps),
        })
    }

    // The steps of the offer.
    pub fn listed(&self) -> &[Step]
        ensures steps { result.now ≡ take self.now.count self.now.steps }
        ensures few { length result.now ≤ 8 }
    {
        &self.steps[..usize::from(self.count)]
    }

    // The power of the steps priced `price` or less.
    pub fn power(&self, price: u8) -> u32
        ensures { result ≡ pool_power (take self.now.count self.now.steps) price }
    {
        self.listed()
            .iter()
            .map(|step| {
                if step.price <= price {
                    u32::from(step.power)
                } else {
                    0
                }
            })
            .sum()
    }

    // How many steps there are.
    pub fn count(self) -> u8
        ensures value { result ≡ self.count }
        ensures most { result ≤ 8 }
    {
        self.count
    }

    // The steps, and after them some that nothing reads.
    pub fn steps(self) -> [Step; 8]
        ensures { result ≡ self.steps }
    {
        self.steps
    }
}

// Whether no price is above 60.
fn within_sixty(steps: &[Step]) -> bool
    ensures { MatchBool result (Priced steps.now) (Priced steps.now → ⊥) }
{
    steps.iter().all(|step| step.price <= 60)
}

// Whether no price is below the one before it.
fn rising(steps: &[Step]) -> bool
    ensures { MatchBool result (Rising steps.now) (Rising steps.now → ⊥) }
{
    steps.is_sorted_by_key(|step| step.price)
}

// Whether no step is of power 0.
fn filled(steps: &[Step]) -> bool
    ensures { MatchBool result (Filled steps.now) (Filled steps.now → ⊥) }
{
    steps.iter().all(|step| step.power > 0)
}

// Whether the steps are filled, and together within ten times the capacity.
fn powered(steps: &[Step], capacity: Capacity) -> bool
    requires { length steps.now ≤ 8 }
    ensures { MatchBool result (Powered capacity.megawatts steps.now) (Powered capacity.megawatts steps.now → ⊥) }
{
    let total: u32 = steps.iter().map(|step| u32::from(step.power)).sum();
    filled(steps) && total <= 10 * u32::from(capacity.megawatts())
}

// The steps, with empty ones after them.
fn eight(steps: &[Step]) -> [Step; 8]
    requires { length steps.now ≤ 8 }
    ensures { take (length steps.now) result ≡ steps.now }
{
    let mut all = [Step { price: 0, power: 0 }; 8];
    all[..steps.len()].copy_from_slice(steps);
    all
}
