// Units handed out one by one, each to the first claim: one text for every kind of claim.
ghost use Rattle.std.specs.Prelude.{◌≡◌, ◌+◌, ◌<◌};
ghost use Rattle.sharing.specs.Handed.{HandedOut, WaitsOn, Exhausted, Apart};
ghost use Rattle.sharing.specs.Places.{total, at_place};
ghost use Rattle.sharing.specs.Waiting.{waiting, room};

use super::claim::Claim;
use super::list::WaitingList;
use super::shares::Shares;

// Gives `units` out to the claims that wait, no two of one holder; what finds no claim, nobody carries.
pub fn hand_out<C: Claim>(list: &mut WaitingList<'_, C>, units: u64) -> Shares
    ensures adds { total (at_place result.parts) + result.uncarried ≡ units }
    ensures handed { Apart C.holder (waiting list.old) → HandedOut C.ahead C.holder C.next (waiting list.old) (at_place result.parts) }
    ensures waits { Apart C.holder (waiting list.old) → WaitsOn C.holder C.next (waiting list.old) (at_place result.parts) (waiting list.new) }
    ensures exhausted { Apart C.holder (waiting list.old) → 0 < result.uncarried → Exhausted C.holder C.next (waiting list.old) (at_place result.parts) }
    ensures room { room list.new ≡ room list.old }
{
    let mut parts = [0u64; 64];
    for k in 0..units {
        let Some(claim) = list.serve() else {
            return Shares {
                parts,
                uncarried: units - k,
            };
        };
        parts[claim.number()] += 1;
    }
    Shares {
        parts,
        uncarried: 0,
    }
}
