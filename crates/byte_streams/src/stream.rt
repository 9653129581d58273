// Where bytes come from and where they go.
ghost use Rattle.std.specs.Prelude.{◌<◌, length};
ghost use Rattle.byte_streams.specs.Stream.{SourceState, SinkState, PullDid, PutDid};

/// What a pull gave.
#[derive(Clone, Copy, Debug, PartialEq, Eq)]
pub enum Pulled {
    /// This many bytes, at least one, at the start of the buffer.
    Got(usize),
    /// Nothing is left.
    End,
    /// The source failed, and gave nothing.
    Failed,
}

/// Where bytes come from.
pub trait Source {
    /// What is left, where the source tells it, and how often it has failed.
    ghost state: { Self → SourceState };

    /// Takes bytes into a buffer, which may not be empty.
    fn pull(&mut self, buffer: &mut [u8]) -> Pulled
        requires { 0 < length buffer.old }
        ensures { PullDid result buffer.new (state self.old) (state self.new) };
}

/// What a put took.
#[derive(Clone, Copy, Debug, PartialEq, Eq)]
pub enum Put {
    /// This many bytes, at least one, from the start of the piece.
    Took(usize),
    /// The sink failed, and took nothing.
    Failed,
}

/// Where bytes go.
pub trait Sink {
    /// What it holds, where the sink tells it, and how often it has failed.
    ghost state: { Self → SinkState };

    /// Appends bytes of a piece, which may not be empty.
    fn put(&mut self, piece: &[u8]) -> Put
        requires { 0 < length piece.now }
        ensures { PutDid result piece.now (state self.old) (state self.new) };
}
