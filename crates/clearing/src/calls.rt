// The calls of a round at its price.
ghost use Rattle.std.specs.Prelude.{◌≡◌, ℕ, ◌+◌, ◌-◌, ◌^◌, ◌<◌, ◌≤◌};
ghost use Rattle.sharing.specs.Places.{at_place};
ghost use Rattle.sharing.specs.Rows.{weights};
ghost use Rattle.clearing.specs.Calls.{CalledAt};
ghost use Rattle.clearing.specs.Prices.{curves, offered as together, Least};

use crate::powers::{below, powers};
use sellers::seller::Seller;
use sharing::row::Row;
use sharing::tenths::share_tenths;
use std::array;

// What is left of `high` above `low`, place by place.
fn between(low: &[u32; 64], high: &[u32; 64]) -> [u32; 64]
    ensures { (i : ℕ) → at_place result i ≡ at_place high.now i - at_place low.now i }
{
    array::from_fn(|i| high[i].saturating_sub(low[i]))
}

// The calls below the price and at it together.
fn joined(low: &[u32; 64], given: &[u64; 64]) -> [u32; 64]
    requires { (i : ℕ) → i < 64 → at_place low.now i + at_place given.now i < 2 ^ 32 }
    ensures { (i : ℕ) → at_place result i ≡ at_place low.now i + at_place given.now i }
{
    array::from_fn(|i| low[i] + given[i] as u32)
}

// Calls each seller for what it offers below the price, and shares out what remains among those that offer more at it.
pub(crate) fn call_at<S: Seller>(sellers: &Row<'_, S>, price: u8, brought: u32) -> [u32; 64]
    requires least { Least (together (curves S.Seller.power sellers.now)) brought price }
    ensures { CalledAt (weights S.Party.heft sellers.now) (curves S.Seller.power sellers.now) price brought (at_place result) }
{
    let low = below(sellers, price);
    let rooms = between(&low, &powers(sellers, price));
    let rest = u64::from(brought) - Row::from(&low).total();
    let handed = share_tenths(sellers, &rooms, rest);
    joined(&low, &handed.parts)
}
