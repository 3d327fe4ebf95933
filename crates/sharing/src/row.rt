// A row of parties: at most 64, numbered 0 to 63 by their places.
ghost use Rattle.std.specs.Prelude.{◌≡◌, ◌<◌, ◌≤◌, length, MatchOption};
ghost use Rattle.sharing.specs.Places.{total, by_place};

use super::party::Party;

#[derive(Drop)]
pub struct Row<'a, T> {
    items: &'a [T],
    ghost few: { length items.now ≤ 64 },
}

impl<'a, T> Row<'a, T> {
    // The row of these, or none where they are more than 64.
    pub fn new(items: &'a [T]) -> Option<Row<'a, T>>
        ensures { MatchOption result (64 < length items.now) (λ row. row.items.now ≡ items.now) }
    {
        if items.len() > 64 {
            return None;
        }
        Some(Row { items })
    }

    pub fn items(&self) -> &'a [T]
        ensures same { result.now ≡ self.now.items.now }
        ensures few { length result.now ≤ 64 }
    {
        self.items
    }
}

// No closure for the figure: a call that takes one has to ask that it may be called, and a public call asks nothing.
impl<P: Party> Row<'_, P> {
    // What the parties weigh together.
    pub fn total(&self) -> u64
        ensures { result ≡ total (by_place P.heft self.now.items.now) }
    {
        self.items
            .iter()
            .map(|party| u64::from(party.weight()))
            .sum()
    }
}

// An impl for each size: one for every N would also take arrays of more than 64, and a public call has no `requires` to refuse them.
impl<'a, T> From<&'a [T; 64]> for Row<'a, T> {
    ghost from_gives = { λ items row. row.items.now ≡ items.now };

    fn from(items: &'a [T; 64]) -> Row<'a, T> {
        Row { items }
    }
}

impl<'a, T> From<&'a [T; 8]> for Row<'a, T> {
    ghost from_gives = { λ items row. row.items.now ≡ items.now };

    fn from(items: &'a [T; 8]) -> Row<'a, T> {
        Row { items }
    }
}
