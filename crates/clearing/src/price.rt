// The price of a round.
ghost use Rattle.std.specs.Prelude.{◌≡◌, ℕ, ◌<◌, ◌≤◌};
ghost use Rattle.clearing.specs.Prices.{curves, offered as together, Least};

use crate::powers::offered;
use sellers::seller::Seller;
use sharing::row::Row;
use std::array;

// The least price at which the sellers together reach the power `brought`.
pub(crate) fn least_price<S: Seller>(sellers: &Row<'_, S>, brought: u32) -> u8
    requires { brought ≤ together (curves S.Seller.power sellers.now) 60 }
    ensures { Least (together (curves S.Seller.power sellers.now)) brought result }
{
    let prices: [u8; 61] = array::from_fn(|price| price as u8);
    prices.partition_point(|price| offered(sellers, *price) < u64::from(brought)) as u8
}
