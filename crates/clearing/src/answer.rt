// What a cleared round answers.

#[derive(Clone, Copy)]
pub struct Clearing {
    // What is brought, in tenths of a megawatt.
    pub brought: u32,
    // The price in tens of yuan per megawatt-hour; none where nothing is brought.
    pub price: Option<u8>,
    // The call of each seller by its number, in tenths of a megawatt; 0 past the last.
    pub calls: [u32; 64],
}
