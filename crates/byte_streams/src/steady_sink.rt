// A sink that keeps nothing.
ghost use Rattle.std.specs.Prelude.{◌≡◌, ◌<◌, None, length};

use crate::stream::{Put, Sink};

/// A sink that takes everything and keeps nothing. It never fails.
#[derive(Debug, Drop)]
pub struct SteadySink;

impl SteadySink {
    /// A sink that keeps nothing.
    pub fn new() -> SteadySink {
        SteadySink
    }
}

impl Sink for SteadySink {
    ghost state = { λ s. record { held = None; faults = 0 } };

    fn put(&mut self, piece: &[u8]) -> Put
        requires { 0 < length piece.now }
        ensures { result ≡ Put.Took (length piece.now) }
    {
        Put::Took(piece.len())
    }
}
