// A claim: of any two it can be told which is served first.
ghost use Rattle.std.specs.Prelude.{◌≡◌, ℕ, ◌<◌, Bool, false, Some, Option as Maybe};
ghost use Rattle.std.specs.Cmp.{IsStrictWeakOrder};

pub trait Claim: Copy {
    // Whether the first claim is served before the second.
    ghost ahead: { Self → Self → Bool };

    // The number of the party whose claim it is.
    ghost holder: { Self → ℕ };

    // The claim that waits on once this one is served.
    ghost next: { Self → Maybe Self };

    // No `Ord`: two fractions of one party may be level and still differ, so an order could not agree with `==`.
    fn before(&self, other: &Self) -> bool
        ensures { result ≡ ahead self.now other.now };

    fn number(&self) -> usize
        ensures { result ≡ holder self.now };

    fn renewed(&self) -> Option<Self>
        ensures { result ≡ next self.now };

    // Any two claims compare, and the order is transitive.
    ghost ranks: { IsStrictWeakOrder ahead };

    // Only claims of one party may be level.
    ghost settles: { (x y : Self) → ahead x y ≡ false → ahead y x ≡ false → holder x ≡ holder y };

    // A party's next claim is not ahead of the one it follows.
    ghost later: { (x y : Self) → next x ≡ Some y → (ahead y x ≡ false) × (holder y ≡ holder x) };

    // Parties are numbered 0 to 63.
    ghost numbered: { (x : Self) → holder x < 64 };
}
