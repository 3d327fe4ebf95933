// One round of one period: who takes part in it, and its clearing.
ghost use Rattle.std.specs.Prelude.{◌≡◌, ℕ, ◌-◌, ◌^◌, ◌<◌, ◌≤◌, get_or, Some, None, IfSome, slice_index, slice_index_or};
ghost use Rattle.sellers.specs.Bidders.{heft_of};
ghost use Rattle.sharing.specs.Places.{total, at_place};
ghost use Rattle.sharing.specs.Shares.{share_of};
ghost use Rattle.day.specs.Kinds.{number_of};
ghost use Rattle.day.specs.Reading.{enrolled, want_at, call_in, received_in, curve_in};
ghost use Rattle.day.specs.Rounds.{Stands};
ghost use Rattle.day.specs.Slots.{weight_of, curve_of};
ghost use Rattle.day.specs.Terms.{capacity_of, curve_from};

use crate::bills::listed;
use crate::book::{Cleared, Enrolled, Role};
use crate::open_round::OpenRound;
use crate::parties::Buyer;
use clearing::clear::clear;
use sellers::bidder::Bidder;
use sellers::pool::Pool;
use sellers::power::Power;
use sellers::rest::Rest;
use sellers::unit::Unit;
use sharing::row::Row;
use sharing::share::share_out;
use std::array;

// The want of an area: 0 where there is no such area.
fn want_of(wants: &[u32; 8], area: u8) -> u32
    ensures { result ≡ slice_index wants.now area }
{
    wants.get(usize::from(area)).copied().unwrap_or(0)
}

// A seller with an offer as it bids in a round: a unit from its base, a pool less what it has been called for.
fn bidding(who: Enrolled, base: Power, called: u32) -> Option<Rest<Bidder>>
    ensures curve { (q : ℕ) → curve_of result q ≡ curve_from (enrolled (Some who)) (λ _. 0) base.tenths called q }
    ensures weight { IfSome result (λ r. heft_of r.seller ≡ who.capacity.megawatts) }
{
    match who.role {
        Role::Thermal { floor, prices } => Some(Rest {
            seller: Bidder::Thermal(Unit::new(who.capacity, floor, base, prices?)),
            called: 0,
        }),
        Role::Pooled(offer) => Some(Rest {
            seller: Bidder::Pooled(Pool::new(who.capacity, offer?)),
            called,
        }),
    }
}

// What the areas want together.
pub(crate) fn wanted(wants: &[u32; 8]) -> u64
    ensures { result ≡ total (at_place wants.now) }
{
    Row::from(wants).total()
}

// The areas as parties, by their wants.
fn buyers(wants: [u32; 8]) -> [Buyer; 8]
    ensures { (a : ℕ) → a < 8 → (get_or result a (record { want = 0 })).want ≡ at_place wants a }
{
    wants.map(|want| Buyer { want })
}

// The first eight of the parts.
fn first_eight(parts: &[u64; 64]) -> [u32; 8]
    requires { (a : ℕ) → a < 8 → at_place parts.now a < 2 ^ 32 }
    ensures { (a : ℕ) → a < 8 → at_place result a ≡ at_place parts.now a }
{
    array::from_fn(|a| parts[a] as u32)
}

// The areas' shares of what is brought, by their wants.
fn receive(wants: [u32; 8], brought: u32) -> [u32; 8]
    ensures { (a : ℕ) → a < 8 → at_place result a ≡ share_of (at_place wants) brought a }
{
    let areas = buyers(wants);
    let shares = share_out(u64::from(brought), &Row::from(&areas));
    first_eight(&shares.parts)
}

impl<'a> OpenRound<'a> {
    // The place of a seller in the round: empty without an offer, and where its area wants some.
    fn place(&self, i: usize) -> Option<Rest<Bidder>>
        ensures curve { (q : ℕ) → curve_of result q ≡ curve_in (enrolled (slice_index_or self.now.sellers.now i None)) self.now.period.now (number_of self.now.kind) i q }
        ensures weight { (q : ℕ) → 0 < curve_of result q → weight_of result ≡ capacity_of (enrolled (slice_index_or self.now.sellers.now i None)) }
    {
        let who = listed(self.sellers, i)?;
        if want_of(&self.period.round(self.kind).wants, who.area) > 0 {
            return None;
        }
        let base = Power::new(self.period.base(self.kind, i)).unwrap();
        bidding(who, base, self.period.before(self.kind, i))
    }

    // The places of all sellers in the round, by their numbers.
    fn places(&self) -> [Option<Rest<Bidder>>; 64]
        ensures curves { (i q : ℕ) → i < 64 → curve_of (slice_index_or result i None) q ≡ curve_in (enrolled (slice_index_or self.now.sellers.now i None)) self.now.period.now (number_of self.now.kind) i q }
        ensures weights { (i q : ℕ) → i < 64 → 0 < curve_of (slice_index_or result i None) q → weight_of (slice_index_or result i None) ≡ capacity_of (enrolled (slice_index_or self.now.sellers.now i None)) }
    {
        array::from_fn(|i| self.place(i))
    }

    // Clears the round.
    pub(crate) fn clear(&self) -> Cleared
        ensures { Stands (λ i. capacity_of (enrolled (slice_index_or self.now.sellers.now i None))) (λ i. curve_in (enrolled (slice_index_or self.now.sellers.now i None)) self.now.period.now (number_of self.now.kind) i) (want_at self.now.period.now (number_of self.now.kind)) result.brought result.price (call_in (Some result)) (received_in (Some result)) }
    {
        let slots = self.places();
        let wants = self.period.round(self.kind).wants;
        let cleared = clear(&Row::from(&slots), wanted(&wants));
        let calls = cleared.calls;
        let received = receive(wants, cleared.brought);
        Cleared {
            brought: cleared.brought,
            price: cleared.price,
            calls,
            received,
        }
    }
}
