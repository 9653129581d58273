// How large heights and widths may be.

/// The largest height and width of a matrix, 2^31.
pub const LARGEST_SIZE: u32 = 0x8000_0000;
