// The producers' share, tested.
ghost use Rattle.std.specs.Prelude.{◌≡◌, ◌<◌, ◌≤◌, IfOk, IfErr};

use crate::faults::Fault;
use money::share::Share;

// The share of so many thousandths, or a refusal above 1000. Opening a day with it never refuses.
pub fn tested_share(thousandths: u16) -> Result<Share, Fault>
    ensures made { IfOk result (λ s. (thousandths ≤ 1000) × (s.thousandths ≡ thousandths)) }
    ensures refused { IfErr result (λ f. (1000 < thousandths) × (f ≡ Fault.Share)) }
{
    Share::new(thousandths).ok_or(Fault::Share)
}
