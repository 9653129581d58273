// What lies in a desk's channel.

// A number to take, or word that there is none.
#[derive(Clone, Copy)]
pub enum NumberOrEnd {
    Number(u32),
    // It stands behind all numbers.
    End,
}
