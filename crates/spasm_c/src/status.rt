// How a call ends.

/// The call has answered.
pub const SPASM_OK: u32 = 0;
/// The system has no solution, and the answer refutes it.
pub const SPASM_REFUTED: u32 = 1;
/// The matrix has no inverse, and the answer is a null vector.
pub const SPASM_SINGULAR: u32 = 1;
/// What was given isn't a matrix, or not one that the call takes.
pub const SPASM_BAD_INPUT: u32 = 3;
/// Memory ran out.
pub const SPASM_NO_MEMORY: u32 = 8;
/// The arrays for the answer are too short.
pub const SPASM_NO_ROOM: u32 = 10;
