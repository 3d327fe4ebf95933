// A unit's offer: a price for each of its eight tiers.
ghost use Rattle.std.specs.Prelude.{◌≡◌, ℕ, IfOk, IfErr, Some, None, MatchBool};
ghost use Rattle.sellers.specs.Faults.{TiersFault};
ghost use Rattle.sellers.specs.Tiers.{Capped, Ordered, Reaches, highest};

use crate::fault::OfferFault;

#[derive(Clone, Copy)]
pub struct TierPrices {
    prices: [u8; 8],
    ghost capped: { Capped prices },
    ghost ordered: { Ordered prices },
}

// The most that a price may be, tier by tier.
const CAPS: [u8; 8] = [0, 30, 30, 40, 50, 60, 60, 60];

impl TierPrices {
    // The offer of these prices, or the first test that it fails.
    pub fn new(prices: [u8; 8]) -> Result<TierPrices, OfferFault>
        ensures made { IfOk result (λ t. TiersFault prices None × (t.prices ≡ prices)) }
        ensures refused { IfErr result (λ f. TiersFault prices (Some f)) }
    {
        if !within_caps(prices) {
            return Err(OfferFault::PriceAboveCap);
        }
        if !in_order(prices) {
            return Err(OfferFault::PriceFalls);
        }
        Ok(TierPrices { prices })
    }

    // The highest-numbered tier priced `price` or less.
    pub fn tier(&self, price: u8) -> u8
        ensures reaches { Reaches self.now.prices price result }
        ensures only { (k : ℕ) → Reaches self.now.prices price k → k ≡ result }
        ensures value { result ≡ highest self.now.prices price 7 }
    {
        let reached = self.prices.iter().rposition(|tier| *tier <= price);
        reached.unwrap_or(0) as u8
    }
}

// Whether no price is above its cap.
fn within_caps(prices: [u8; 8]) -> bool
    ensures { MatchBool result (Capped prices) (Capped prices → ⊥) }
{
    prices.iter().zip(&CAPS).all(|(price, cap)| price <= cap)
}

// Whether no price is below the one before it.
fn in_order(prices: [u8; 8]) -> bool
    ensures { MatchBool result (Ordered prices) (Ordered prices → ⊥) }
{
    prices.is_sorted()
}
