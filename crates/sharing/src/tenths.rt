// Tenths handed out by the fraction rule among the parties that have room for them.
ghost use Rattle.std.specs.Prelude.{◌≡◌, ◌+◌, ◌-◌, length};
ghost use Rattle.sharing.specs.Entered.{Roomed};
ghost use Rattle.sharing.specs.Places.{total, at_place};
ghost use Rattle.sharing.specs.Rows.{weights};
ghost use Rattle.sharing.specs.Tenths.{ByFraction, OnlyTenths, takes};
ghost use Rattle.sharing.specs.Waiting.{waiting};

use super::fraction::Fraction;
use super::hand::hand_out;
use super::list::WaitingList;
use super::party::Party;
use super::row::Row;
use super::shares::Shares;

// A claim to its first tenth waits for each party that has a weight and room.
// The rooms are an array beside the row: the parties' numbers are the subject's 64, and no heap is used.
fn enter_rooms<'a, P: Party>(
    parties: &Row<'_, P>,
    rooms: &[u32; 64],
    slots: &'a mut [Fraction; 64],
) -> WaitingList<'a, Fraction>
    ensures roomed { Roomed (weights P.heft parties.now) (takes (weights P.heft parties.now) (at_place rooms.now)) (length parties.now.items.now) (waiting result) }
{
    let mut list = WaitingList::new(slots);
    for (i, party) in parties.items().iter().enumerate() {
        let weight = party.weight();
        let room = rooms[i];
        if weight > 0 && room > 0 {
            let claim = Fraction {
                had: 0,
                weight,
                room,
                number: i,
            };
            list.enter(claim).unwrap();
        }
    }
    list
}

// Gives `rest` tenths out by the fraction rule, and says how many found no room. A party without a weight takes none.
pub fn share_tenths<P: Party>(parties: &Row<'_, P>, rooms: &[u32; 64], rest: u64) -> Shares
    ensures adds { total (at_place result.parts) + result.uncarried ≡ rest }
    ensures uncarried { result.uncarried ≡ rest - total (takes (weights P.heft parties.now) (at_place rooms.now)) }
    ensures shared { ByFraction (weights P.heft parties.now) (takes (weights P.heft parties.now) (at_place rooms.now)) (at_place result.parts) }
    ensures only { OnlyTenths (weights P.heft parties.now) (takes (weights P.heft parties.now) (at_place rooms.now)) (at_place result.parts) }
{
    let mut slots = [Fraction {
        had: 0,
        weight: 1,
        room: 0,
        number: 0,
    }; 64];
    let mut list = enter_rooms(parties, rooms, &mut slots);
    hand_out(&mut list, rest)
}
