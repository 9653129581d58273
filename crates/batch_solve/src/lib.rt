//! Many right-hand sides for one matrix, answered by several workers; and the top call of the program that does so.
#![tactic(auto)]

mod all_replies;
mod batch_run;
mod batch_status;
mod batch_texts;
mod batch_words;
mod laws;
mod watch;
mod worker;
mod written_replies;

pub use all_replies::answer_all;
pub use batch_run::{at_most_one_batch_answer, run_batch, run_batch_within};
pub use batch_status::BatchStatus;
pub use batch_words::{BatchCommand, LARGEST_COUNT, at_most_one_batch, read_batch_words};
pub use laws::batches_are_worked;
pub use question_desk::{Desk, Taker, drained_leaves_none, lists_share_no_number};
pub use watch::{Unwatched, Watch};
