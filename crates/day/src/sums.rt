// Sums of a figure over parties and periods.
// Two `for` loops: they see by its type that a figure is below 2 ^ 64, where a chain needs one more function and clause to say so.
ghost use Rattle.std.specs.Prelude.{◌≡◌, ℕ, ◌*◌, ◌^◌, ◌<◌, ◌≤◌};
ghost use Rattle.sharing.specs.Places.{upto};

// figure(0) + figure(1) + .. + figure(count - 1)
fn sum_of<F: Fn(u8) -> u64>(count: u8, figure: F) -> u128
    requires { F.IsAlwaysCallable figure }
    ensures value { (f : ℕ → ℕ) → ((i r : ℕ) → i < count → F.post figure i r → r ≡ f i) → result ≡ upto f count }
    ensures most { (m : ℕ) → ((i r : ℕ) → i < count → F.post figure i r → r ≤ m) → result ≤ m * count }
    ensures fits { result ≤ 2 ^ 64 * count }
{
    let mut sum = 0u128;
    for i in 0..count {
        sum += u128::from(figure(i));
    }
    sum
}

// The sum of a figure, by period and party, over so many parties and the 96 periods of a day.
pub(crate) fn in_day<F: Fn(u8, u8) -> u64>(parties: u8, figure: F) -> u128
    requires { F.IsAlwaysCallable figure }
    ensures value { (f : ℕ → ℕ → ℕ) → ((p i r : ℕ) → p < 96 → i < parties → F.post figure p i r → r ≡ f p i) → result ≡ upto (λ p. upto (f p) parties) 96 }
    ensures most { (m : ℕ) → ((p i r : ℕ) → p < 96 → i < parties → F.post figure p i r → r ≤ m) → result ≤ m * parties * 96 }
    ensures fits { result ≤ 2 ^ 64 * 255 * 96 }
{
    let mut sum = 0u128;
    for period in 0..96u8 {
        sum += sum_of(parties, |i| figure(period, i));
    }
    sum
}
