// The steps of a pool's offer, read from the file's bytes.
ghost use Rattle.std.specs.Prelude.{◌≡◌, ◌/◌, ◌≤◌, length};
ghost use Rattle.dayfile.specs.Files.{steps_in};

use arrayvec::ArrayVec;
use sellers::step::Step;

// The steps that the bytes show, three bytes each: as many as a byte can count.
// No Vec: reading a file would then fail for want of memory.
pub(crate) fn steps_in(shown: &[u8]) -> ArrayVec<Step, 255>
    requires { length shown.now ≤ 765 }
    ensures { result.items ≡ steps_in (length shown.now / 3) shown.now }
{
    let (triples, _) = shown.as_chunks::<3>();
    let mut steps = ArrayVec::new();
    for [price, high, low] in triples {
        steps.push(Step {
            price: *price,
            power: u16::from_be_bytes([*high, *low]),
        });
    }
    steps
}
