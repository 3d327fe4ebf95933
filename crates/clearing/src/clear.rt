// Clearing: how much is brought, at what price, and whom it is called from.
ghost use Rattle.std.specs.Prelude.{◌≡◌, ℕ, ◌<◌, ◌≤◌, length};
ghost use Rattle.sharing.specs.Places.{at_place};
ghost use Rattle.sharing.specs.Rows.{weights};
ghost use Rattle.clearing.specs.Calls.{Clears, OnlyAnswer, Short};
ghost use Rattle.clearing.specs.Costs.{Offers, Cheapest, Settled};
ghost use Rattle.clearing.specs.Prices.{curves};

use crate::answer::Clearing;
use crate::calls::call_at;
use crate::powers::offered;
use crate::price::least_price;
use sellers::seller::Seller;
use sharing::row::Row;

// Clears a round: brings as much of `wanted` as the sellers have, at the least price that brings it.
pub fn clear<S: Seller>(sellers: &Row<'_, S>, wanted: u64) -> Clearing
    ensures clears { Clears (weights S.Party.heft sellers.now) (curves S.Seller.power sellers.now) wanted result.brought result.price (at_place result.calls) }
    ensures only { OnlyAnswer (weights S.Party.heft sellers.now) (curves S.Seller.power sellers.now) wanted result.brought result.price (at_place result.calls) }
    ensures short { Short (curves S.Seller.power sellers.now) wanted result.brought }
    ensures offers { (i : ℕ) → Offers (curves S.Seller.power sellers.now i) }
    ensures cheapest { Cheapest (curves S.Seller.power sellers.now) (at_place result.calls) }
    ensures settled { Settled (curves S.Seller.power sellers.now) result.price (at_place result.calls) }
{
    let brought = wanted.min(offered(sellers, 60)) as u32;
    if brought == 0 {
        return Clearing {
            brought,
            price: None,
            calls: [0; 64],
        };
    }
    let price = least_price(sellers, brought);
    Clearing {
        brought,
        price: Some(price),
        calls: call_at(sellers, price, brought),
    }
}
