// A stage of a deal.

// How far a deal is: the parts before `joined` stand in the result, those before `begun` are made, and those before `end` come next.
#[derive(Clone, Copy, Debug)]
pub(crate) struct Stage {
    pub(crate) joined: usize,
    pub(crate) begun: usize,
    pub(crate) end: usize,
}
