// The fee of a call.
ghost use Rattle.std.specs.Prelude.{◌≡◌, ◌^◌, ◌<◌};
ghost use Rattle.money.specs.Money.{fee_of};

// What a call of so many tenths earns at a price, in fen.
pub fn fee(price: u8, call: u32) -> u64
    ensures value { result ≡ fee_of price call }
    ensures most { result < 2 ^ 45 }
{
    25 * u64::from(price) * u64::from(call)
}
