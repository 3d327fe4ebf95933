// A step of a pool's offer: so many tenths of a megawatt at such a price.
#[derive(Clone, Copy, Default)]
pub struct Step {
    pub price: u8,
    pub power: u16,
}
