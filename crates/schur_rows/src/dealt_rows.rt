// The rows of a pass as they are dealt to workers.
ghost use Rattle.std.specs.Prelude.{◌≡◌, ◌≤◌};
ghost use Rattle.schur_rows.specs.Parts.{AreDealtRows, cut_at};

use crate::reduction_pass::ReductionPass;

// The rows from `from` up to `to` in so many parts, which begin at these cuts: so many parts a stage, which the workers take as they
// become free.
#[derive(Clone, Copy, Debug)]
pub struct DealtRows<'r, 't, 'a> {
    pub pass: ReductionPass<'r, 't, 'a>,
    pub from: u32,
    pub to: u32,
    pub cuts: &'r [u32],
    pub count: usize,
    pub stage: usize,
    pub workers: usize,
}

impl<'r, 't, 'a> DealtRows<'r, 't, 'a> {
    // Where part j begins, and the one before it ends.
    pub(crate) fn cut(&self, j: usize) -> u32
        requires deal { AreDealtRows self.now }
        requires part { j ≤ self.now.count }
        ensures { result ≡ cut_at self.now j }
    {
        self.cuts[j]
    }
}
