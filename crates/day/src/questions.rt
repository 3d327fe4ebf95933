// What a closed day answers of calls, prices, fees and charges: 0, or no price, where there is no such round, period or party.
// Plain numbers, since any may be asked, and the private questions take the same.
ghost use Rattle.std.specs.Prelude.{◌≡◌, ℕ, ◌+◌, ◌^◌, ◌<◌, ◌≤◌, length, is_some, if◌then◌else◌, slice_index_or};
ghost use Rattle.sharing.specs.Places.{total, at_place};
ghost use Rattle.sharing.specs.Shares.{share_of};
ghost use Rattle.day.specs.Alike.{ReadAlike};
ghost use Rattle.day.specs.Bills.{call_of, price_of, wanted_of, brought_of, received_of, net, plant_charge, uncarried_charge};
ghost use Rattle.day.specs.Bills as bills;
ghost use Rattle.day.specs.Reading.{no_round, period_at, cleared_at, price_in, call_in, received_in};
ghost use Rattle.day.specs.Terms.{or_else};

use crate::bills::{cleared_in, listed, producers};
use crate::book::{Cleared, Period, Round};
use crate::closed::ClosedDay;
use crate::fresh::blank_period;
use crate::period::called_in;
use crate::rounds::wanted;
use money::fee::fee;
use money::share::split;
use sharing::row::Row;
use sharing::share::share_out;
use sharing::shares::Shares;

// The price of a cleared round, or 0.
fn price_or_zero(cleared: Option<Cleared>) -> u8
    ensures { result ≡ or_else (price_in cleared) 0 }
{
    cleared.and_then(|of| of.price).unwrap_or(0)
}

// What an area received in a cleared round. Beside `called_in`: one text for both would take the array by a closure, and be no shorter.
fn received_in(cleared: Option<Cleared>, area: u8) -> u32
    ensures { result ≡ received_in cleared area }
{
    cleared
        .and_then(|of| of.received.get(usize::from(area)).copied())
        .unwrap_or(0)
}

// What was wanted in a cleared round: 0 where it is not cleared, or there is no such round.
fn wanted_in(rounds: &[Round; 2], round: u8) -> u64
    ensures { result ≡ (if is_some (slice_index_or rounds.now round no_round).cleared then total (at_place (slice_index_or rounds.now round no_round).wants) else 0) }
{
    match rounds.get(usize::from(round)) {
        Some(of) if of.cleared.is_some() => wanted(&of.wants),
        _ => 0,
    }
}

impl ClosedDay {
    // A period as it is read: a blank one where there is no such period.
    // A copy: the blank one cannot be lent, as no static may be that holds an array of structs; and with an `Option`, each that reads it would say what stands in place of none.
    pub(crate) fn period(&self, period: u8) -> Period
        ensures { ReadAlike result (period_at self.now.book period) }
    {
        self.book
            .periods
            .get(usize::from(period))
            .copied()
            .unwrap_or_else(blank_period)
    }

    // The clearing of a round of a period.
    pub(crate) fn cleared(&self, round: u8, period: u8) -> Option<Cleared>
        ensures { result ≡ cleared_at (period_at self.now.book period) round }
    {
        cleared_in(&self.period(period).rounds, round)
    }

    // The call of a seller in a round, in tenths of a megawatt.
    pub fn call(&self, seller: u8, round: u8, period: u8) -> u32
        ensures { result ≡ call_of self.now.book round period seller }
    {
        called_in(self.cleared(round, period), usize::from(seller))
    }

    // The price of a round, in tens of yuan per megawatt-hour.
    pub fn price(&self, round: u8, period: u8) -> Option<u8>
        ensures { result ≡ price_of self.now.book round period }
    {
        self.cleared(round, period)?.price
    }

    // What the areas wanted together in a cleared round, in tenths of a megawatt.
    pub fn wanted(&self, round: u8, period: u8) -> u64
        ensures { result ≡ wanted_of self.now.book round period }
    {
        self.book
            .periods
            .get(usize::from(period))
            .map_or(0, |of| wanted_in(&of.rounds, round))
    }

    // What was brought in a round, in tenths of a megawatt.
    pub fn brought(&self, round: u8, period: u8) -> u32
        ensures { result ≡ brought_of self.now.book round period }
    {
        self.cleared(round, period).map_or(0, |of| of.brought)
    }

    // The fee of a seller in a round, in fen.
    pub fn fee(&self, seller: u8, round: u8, period: u8) -> u64
        ensures value { result ≡ bills.fee self.now.book round period seller }
        ensures most { result < 2 ^ 45 }
    {
        fee(
            price_or_zero(self.cleared(round, period)),
            self.call(seller, round, period),
        )
    }

    // The charge of an area in a period, over both rounds, in fen.
    pub fn charge(&self, area: u8, period: u8) -> u64
        ensures { result ≡ bills.charge self.now.book period area }
    {
        let first = self.cleared(0, period);
        let second = self.cleared(1, period);
        fee(price_or_zero(first), received_in(first, area))
            + fee(price_or_zero(second), received_in(second, area))
    }

    // The producers' part and the users' part of an area's charge; together they are the charge.
    pub fn split(&self, area: u8, period: u8) -> (u64, u64)
        ensures producers { result.0 ≡ bills.producers self.now.book period area }
        ensures users { result.1 ≡ bills.users self.now.book period area }
        ensures adds { result.0 + result.1 ≡ bills.charge self.now.book period area }
    {
        split(self.book.share, self.charge(area, period))
    }

    // The shares of an area's plants in its producers' part, by net energy.
    // Beside the shares of units: other parties, amount and clauses, and the share-out they have in common is one function already.
    pub(crate) fn plant_shares(&self, area: u8, period: u8) -> Shares
        ensures parts { (j : ℕ) → j < 64 → at_place result.parts j ≡ share_of (net self.now.book period area) (bills.producers self.now.book period area) j }
        ensures uncarried { result.uncarried ≡ uncarried_charge self.now.book period area }
    {
        let (part, _) = self.split(area, period);
        let parties = producers(&self.book.plants, &self.period(period).plants, area);
        share_out(part, &Row::from(&parties))
    }

    // The charge of a plant in a period, in fen. Beside a unit's refund: a public question of its own, in one expression.
    pub fn plant_charge(&self, plant: u8, period: u8) -> u64
        ensures { result ≡ plant_charge self.now.book period plant }
    {
        listed(&self.book.plants, usize::from(plant)).map_or(0, |area| {
            self.plant_shares(area, period).parts[usize::from(plant)]
        })
    }

    // What no plant of an area carries of its producers' part in a period, in fen.
    pub fn uncarried_charge(&self, area: u8, period: u8) -> u64
        ensures { result ≡ uncarried_charge self.now.book period area }
    {
        self.plant_shares(area, period).uncarried
    }
}
