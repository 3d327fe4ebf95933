// A claim to the tenth after `had`: the least (had + 1) / weight first, then the lower number.
ghost use Rattle.std.specs.Prelude.{◌<◌};

#[derive(Clone, Copy)]
pub struct Fraction {
    pub had: u32,
    pub weight: u32,
    pub room: u32,
    pub number: usize,
    ghost heavy: { 0 < weight },
    ghost numbered: { number < 64 },
}
