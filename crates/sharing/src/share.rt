// An amount shared out over parties by their weights.
ghost use Rattle.std.specs.Prelude.{◌≡◌, ℕ, ◌+◌, ◌^◌, ◌<◌, length};
ghost use Rattle.sharing.specs.Entered.{Rounded};
ghost use Rattle.sharing.specs.Places.{upto, total, at_place};
ghost use Rattle.sharing.specs.Rows.{weights};
ghost use Rattle.sharing.specs.Shares.{Shared, OnlyShares, part_of, share_of};
ghost use Rattle.sharing.specs.Waiting.{waiting};

use super::hand::hand_out;
use super::list::WaitingList;
use super::party::Party;
use super::remainder::Remainder;
use super::row::Row;
use super::shares::Shares;
use std::array;

// Gives each party its part, rounded down, and lets it wait for one more by its remainder; what is left nobody carries yet.
fn round_down<'a, P: Party>(
    amount: u64,
    weight: u64,
    parties: &Row<'_, P>,
    slots: &'a mut [Remainder; 64],
) -> (Shares, WaitingList<'a, Remainder>)
    requires weight { (weight ≡ total (weights P.heft parties.now)) × (0 < weight) }
    ensures rounded { Rounded (weights P.heft parties.now) amount (length parties.now.items.now) (at_place result.0.parts) (waiting result.1) }
    ensures left { upto (part_of (weights P.heft parties.now) amount) (length parties.now.items.now) + result.0.uncarried ≡ amount }
{
    let mut list = WaitingList::new(slots);
    let mut parts = [0u64; 64];
    let mut left = amount;
    let divisor = u128::from(weight);
    for (i, party) in parties.items().iter().enumerate() {
        let due = u128::from(amount) * u128::from(party.weight());
        let part = (due / divisor) as u64;
        parts[i] = part;
        left -= part;
        let claim = Remainder {
            part: (due % divisor) as u64,
            number: i,
        };
        list.enter(claim).unwrap();
    }
    let rounded = Shares {
        parts,
        uncarried: left,
    };
    (rounded, list)
}

// Both together, place by place.
fn added(parts: &[u64; 64], odd: &[u64; 64]) -> [u64; 64]
    requires fits { (i : ℕ) → i < 64 → at_place parts.now i + at_place odd.now i < 2 ^ 64 }
    ensures { (i : ℕ) → at_place result i ≡ at_place parts.now i + at_place odd.now i }
{
    array::from_fn(|i| parts[i] + odd[i])
}

// Shares the amount out: each party gets its part rounded down, and what is left over goes one each to the greatest remainders.
pub fn share_out<P: Party>(amount: u64, parties: &Row<'_, P>) -> Shares
    ensures shared { Shared (weights P.heft parties.now) amount (at_place result.parts) result.uncarried }
    ensures only { 0 < total (weights P.heft parties.now) → OnlyShares (weights P.heft parties.now) amount (at_place result.parts) }
    ensures value { (i : ℕ) → i < 64 → at_place result.parts i ≡ share_of (weights P.heft parties.now) amount i }
    ensures adds { total (at_place result.parts) + result.uncarried ≡ amount }
    ensures weightless { (i : ℕ) → weights P.heft parties.now i ≡ 0 → at_place result.parts i ≡ 0 }
{
    let weight = parties.total();
    if weight == 0 {
        return Shares {
            parts: [0; 64],
            uncarried: amount,
        };
    }
    let mut slots = [Remainder { part: 0, number: 0 }; 64];
    let (rounded, mut list) = round_down(amount, weight, parties, &mut slots);
    let odd = hand_out(&mut list, rounded.uncarried);
    Shares {
        parts: added(&rounded.parts, &odd.parts),
        uncarried: odd.uncarried,
    }
}
