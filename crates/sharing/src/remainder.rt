// A claim to what rounding down left over: the greatest remainder first, then the lower number.
ghost use Rattle.std.specs.Prelude.{◌<◌};

#[derive(Clone, Copy)]
pub struct Remainder {
    pub part: u64,
    pub number: usize,
    ghost numbered: { number < 64 },
}
