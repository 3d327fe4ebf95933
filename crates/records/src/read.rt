// Which record stands at the start of some bytes: its mark, whether it is for the stage, then its body.
ghost use Rattle.records.specs.Format.{ReadsBack, WasWritten};
ghost use Rattle.std.specs.Prelude.{Some};
ghost use Rattle.records.specs.Records.{Says, by_kind, said};

use crate::fault::RecordFault;
use crate::kind::{Kind, Stage};
use crate::record::Record;

// The record of that kind whose body is at the start of `body`, where the kind is for the stage.
fn read_for(stage: Stage, kind: Kind, body: &[u8]) -> Result<Record<'_>, RecordFault>
    ensures { Says (by_kind stage (Some kind) body.now) result }
{
    if kind.stage() != stage {
        return Err(RecordFault::Misplaced);
    }
    kind.read_body(body)
}

// The record at the start of `bytes`, for a day at that stage. What is written is read back, and nothing else is read.
pub fn read_record(bytes: &[u8], stage: Stage) -> Result<Record<'_>, RecordFault>
    ensures says { Says (said stage bytes.now) result }
    ensures back { ReadsBack }
    ensures written { WasWritten }
{
    let (mark, body) = bytes.split_first_chunk().ok_or(RecordFault::Cut)?;
    let kind = Kind::try_from(*mark)?;
    read_for(stage, kind, body)
}
