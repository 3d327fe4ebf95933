// What the sellers of a round offer at a price, each of them and together.
// Functions of a row and a price, not methods: the row is a type of `sharing`, and a wrapper of both would hold no fact.
ghost use Rattle.std.specs.Prelude.{◌≡◌, ℕ, ◌<◌, ◌≤◌, min, length};
ghost use Rattle.sharing.specs.Places.{at_place, by_place};
ghost use Rattle.sharing.specs.Rows.{weights};
ghost use Rattle.sellers.specs.Curves.{Weighs};
ghost use Rattle.clearing.specs.Calls.{under};
ghost use Rattle.clearing.specs.Prices.{curves, curves_at, offered as together};

use sellers::seller::Seller;
use sharing::row::Row;
use std::array;

// What the seller of a number offers at `price` or less: nothing where nobody stands.
fn power<S: Seller>(sellers: &[S], i: usize, price: u8) -> u32
    ensures value { result ≡ curves_at S.Seller.power sellers.now i (min price 60) }
    ensures weighs { i < length sellers.now → Weighs (by_place S.Party.heft sellers.now i) }
{
    sellers.get(i).map_or(0, |seller| seller.curve(price))
}

// What each seller offers at `price` or less.
pub(crate) fn powers<S: Seller>(sellers: &Row<'_, S>, price: u8) -> [u32; 64]
    ensures each { (i : ℕ) → at_place result i ≡ curves S.Seller.power sellers.now i (min price 60) }
    ensures weighs { (i : ℕ) → i < length sellers.now.items.now → Weighs (weights S.Party.heft sellers.now i) }
{
    let sellers = sellers.items();
    array::from_fn(|i| power(sellers, i, price))
}

// What each seller offers below `price`: nothing where that is 0.
pub(crate) fn below<S: Seller>(sellers: &Row<'_, S>, price: u8) -> [u32; 64]
    requires { price ≤ 60 }
    ensures { (i : ℕ) → at_place result i ≡ under (curves S.Seller.power sellers.now i) price }
{
    if price == 0 {
        return [0; 64];
    }
    powers(sellers, price - 1)
}

// What the sellers offer together at `price` or less.
pub(crate) fn offered<S: Seller>(sellers: &Row<'_, S>, price: u8) -> u64
    ensures { result ≡ together (curves S.Seller.power sellers.now) (min price 60) }
{
    Row::from(&powers(sellers, price)).total()
}
