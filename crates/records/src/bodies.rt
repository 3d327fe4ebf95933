// The reader of each kind's body. What follows the body is left alone.
ghost use Rattle.std.specs.Prelude.{◌≡◌, ◌<◌, ◌≤◌, length, take, MatchResult};
ghost use Rattle.records.specs.declared.fault.RecordFault.TheVariants as fault;
ghost use Rattle.records.specs.Records.{Says, body_of};

use crate::fault::RecordFault;
use crate::kind::Kind;
use crate::record::Record;

impl Kind {
    // The record of this kind whose body is at the start of `body`.
    // A match: each kind has a reader of its own, and a table of readers would make function pointers and hand them out.
    pub(crate) fn read_body(self, body: &[u8]) -> Result<Record<'_>, RecordFault>
        ensures { Says (body_of self body.now) result }
    {
        match self {
            Kind::Open => open(body),
            Kind::EnrolUnit => enrol_unit(body),
            Kind::EnrolPool => enrol_pool(body),
            Kind::EnrolPlant => enrol_plant(body),
            Kind::OfferUnit => offer_unit(body),
            Kind::OfferPool => offer_pool(body),
            Kind::CloseOffers => Ok(Record::CloseOffers),
            Kind::Plan => plan(body),
            Kind::Want => want(body),
            Kind::Clear => clear(body),
            Kind::ReadUnit => read_unit(body),
            Kind::ReadPlant => read_plant(body),
            Kind::CloseDay => Ok(Record::CloseDay),
        }
    }
}

// The first N bytes of a body, for its fields.
// Readers alike but for the names of their fields stay apart: one for both would build each record by a closure, and be longer than the two.
fn first<const N: usize>(body: &[u8]) -> Result<[u8; N], RecordFault>
    ensures { MatchResult result (λ xs. (N ≤ length body.now) × (xs ≡ take N body.now)) (λ e. (length body.now < N) × (e ≡ fault.Cut)) }
{
    body.first_chunk().copied().ok_or(RecordFault::Cut)
}

fn open(body: &[u8]) -> Result<Record<'_>, RecordFault>
    ensures { Says (body_of Kind.Open body.now) result }
{
    let share = u16::from_be_bytes(first(body)?);
    Ok(Record::Open { share })
}

fn enrol_unit(body: &[u8]) -> Result<Record<'_>, RecordFault>
    ensures { Says (body_of Kind.EnrolUnit body.now) result }
{
    let [seller, area, a, b, c, d] = first::<6>(body)?;
    Ok(Record::EnrolUnit {
        seller,
        area,
        capacity: u16::from_be_bytes([a, b]),
        floor: u16::from_be_bytes([c, d]),
    })
}

fn enrol_pool(body: &[u8]) -> Result<Record<'_>, RecordFault>
    ensures { Says (body_of Kind.EnrolPool body.now) result }
{
    let [seller, area, a, b] = first::<4>(body)?;
    Ok(Record::EnrolPool {
        seller,
        area,
        capacity: u16::from_be_bytes([a, b]),
    })
}

fn enrol_plant(body: &[u8]) -> Result<Record<'_>, RecordFault>
    ensures { Says (body_of Kind.EnrolPlant body.now) result }
{
    let [plant, area] = first::<2>(body)?;
    Ok(Record::EnrolPlant { plant, area })
}

fn offer_unit(body: &[u8]) -> Result<Record<'_>, RecordFault>
    ensures { Says (body_of Kind.OfferUnit body.now) result }
{
    let [seller, rest @ ..] = body else {
        return Err(RecordFault::Cut);
    };
    let prices = rest.first_chunk().ok_or(RecordFault::Cut)?;
    Ok(Record::OfferUnit {
        seller: *seller,
        prices,
    })
}

fn offer_pool(body: &[u8]) -> Result<Record<'_>, RecordFault>
    ensures { Says (body_of Kind.OfferPool body.now) result }
{
    let [seller, count, rest @ ..] = body else {
        return Err(RecordFault::Cut);
    };
    let steps = rest.get(..3 * usize::from(*count)).ok_or(RecordFault::Cut)?;
    Ok(Record::OfferPool {
        seller: *seller,
        count: *count,
        steps,
    })
}

fn plan(body: &[u8]) -> Result<Record<'_>, RecordFault>
    ensures { Says (body_of Kind.Plan body.now) result }
{
    let [round, seller, period, a, b] = first::<5>(body)?;
    Ok(Record::Plan {
        round,
        seller,
        period,
        power: u16::from_be_bytes([a, b]),
    })
}

fn want(body: &[u8]) -> Result<Record<'_>, RecordFault>
    ensures { Says (body_of Kind.Want body.now) result }
{
    let [round, area, period, a, b, c, d] = first::<7>(body)?;
    Ok(Record::Want {
        round,
        area,
        period,
        power: u32::from_be_bytes([a, b, c, d]),
    })
}

fn clear(body: &[u8]) -> Result<Record<'_>, RecordFault>
    ensures { Says (body_of Kind.Clear body.now) result }
{
    let [round, period] = first::<2>(body)?;
    Ok(Record::Clear { round, period })
}

fn read_unit(body: &[u8]) -> Result<Record<'_>, RecordFault>
    ensures { Says (body_of Kind.ReadUnit body.now) result }
{
    let [seller, period, a, b, c, d] = first::<6>(body)?;
    Ok(Record::ReadUnit {
        seller,
        period,
        energy: u32::from_be_bytes([a, b, c, d]),
    })
}

fn read_plant(body: &[u8]) -> Result<Record<'_>, RecordFault>
    ensures { Says (body_of Kind.ReadPlant body.now) result }
{
    let [plant, period, a, b, c, d] = first::<6>(body)?;
    Ok(Record::ReadPlant {
        plant,
        period,
        energy: u32::from_be_bytes([a, b, c, d]),
    })
}
