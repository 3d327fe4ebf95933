// The shares of what is shared or handed out: what each party gets, by its number, and what no party carries.

#[derive(Clone, Copy)]
pub struct Shares {
    // An array beside the row of parties: their numbers are the subject's 64, and no heap is used.
    pub parts: [u64; 64],
    pub uncarried: u64,
}
