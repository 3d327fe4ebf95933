// A waiting list: a binary heap over a lent slice of claims, for every kind of claim.
ghost use Rattle.std.specs.Prelude.{◌≡◌, ◌<◌, ◌≤◌, [], ◌∷◌, length, take, MatchOption, MatchResult};
ghost use Rattle.std.specs.List.Sorted.{IsPermutation};
ghost use Rattle.sharing.specs.Order.{First, Queued};

use super::claim::Claim;
use super::sift::{rise, sink};

// There is no room for one more claim.
#[derive(Clone, Copy, PartialEq, Eq, Debug)]
pub struct NoRoom;

// A slice and how much of it is in use: the list takes no memory of its own, so the caller lends all that it may need.
#[derive(Drop)]
pub struct WaitingList<'a, C: Claim> {
    claims: &'a mut [C],
    len: usize,
    // What waits fits the lent slice.
    ghost fits: { len ≤ length claims.now },
    // What waits stands as a heap.
    ghost queued: { Queued C.ahead (take len claims.now) },
}

impl<'a, C: Claim> WaitingList<'a, C> {
    ghost use Rattle.sharing.specs.Waiting.{waiting, room, Serves};

    // An empty list, with room for as many claims as the slice has.
    pub fn new(claims: &'a mut [C]) -> WaitingList<'a, C>
        ensures empty { waiting result ≡ [] }
        ensures room { room result ≡ length claims.old }
    {
        WaitingList { claims, len: 0 }
    }

    // Lets one more claim wait; where there is no room the list stays as it was.
    pub fn enter(&mut self, claim: C) -> Result<(), NoRoom>
        ensures room { room self.new ≡ room self.old }
        ensures entered { MatchResult result (λ _. (length (waiting self.old) < room self.old) × IsPermutation (claim ∷ waiting self.old) (waiting self.new)) (λ _. (room self.old ≤ length (waiting self.old)) × (waiting self.new ≡ waiting self.old)) }
    {
        let n = self.len;
        if n == self.claims.len() {
            return Err(NoRoom);
        }
        self.claims[n] = claim;
        rise(&mut self.claims[..n + 1]);
        self.len = n + 1;
        Ok(())
    }

    // Serves the first claim: the one that follows it, if any, takes its place and sinks to its own.
    pub fn serve(&mut self) -> Option<C>
        ensures room { room self.new ≡ room self.old }
        ensures items { MatchOption result ((waiting self.old ≡ []) × (waiting self.new ≡ [])) (λ c. First C.ahead c (waiting self.old) × Serves C.next c (waiting self.old) (waiting self.new)) }
    {
        let n = self.len;
        if n == 0 {
            return None;
        }
        let first = self.claims[0];
        let (head, left) = match first.renewed() {
            Some(follower) => (follower, n),
            None => (self.claims[n - 1], n - 1),
        };
        // Until the new head has sunk, nothing counts as waiting.
        self.len = 0;
        self.claims[0] = head;
        sink(&mut self.claims[..left]);
        self.len = left;
        Some(first)
    }
}
