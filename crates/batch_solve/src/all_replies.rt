// All questions, answered by several workers.
ghost use Rattle.std.specs.Prelude.{All, ◌≡◌, ◌<◌, ◌^◌, None, IfOk, IfSome, length, replicate};
ghost use Rattle.kernel_solve.specs.Prepared.{IsReply};
ghost use Rattle.question_desk.specs.Desk.{IsTakerOf};
ghost use Rattle.batch_solve.specs.Replies.{AreReplies, AreSlots, IsAnsweredAt, IsIdleAt, IsQuestion, WorksAt};

use crate::watch::Watch;
use crate::worker::{Answered, Worker};
use kernel_solve::{Prepared, Reply};
use question_desk::{Desk, Taker};
use sparse_rows::Rows;
use std::alloc::{AllocError, Global};
use std::sync::Wait;
use std::thread::{Threads, for_each_mut};

// The workers, each with a taker of its own, who found nothing yet.
fn team<R: Wait>(
    rt: &R,
    alloc: Global,
    desk: &Desk,
    taker: &mut Taker,
    count: u32,
) -> Result<Vec<Worker>, AllocError>
    requires { IsTakerOf desk.now taker.old }
    ensures { IfOk result (λ v. All (IsIdleAt desk.now) v.items) }
{
    let mut workers = Vec::with_capacity(alloc, count as usize)?;
    for number in 0..count {
        let taker = desk.split(rt, taker)?;
        workers.push(Worker {
            alloc,
            taker,
            number,
            answered: Vec::new(alloc),
        })?;
    }
    Ok(workers)
}

// Runs the workers, each in a thread of its own where one can be made.
fn run_all<R: Threads + Wait + Sync, W: Watch>(
    rt: &R,
    desk: &Desk,
    prepared: &Prepared,
    questions: &[Rows],
    workers: &mut [Worker],
    watch: &W,
)
    requires count { desk.now.count ≡ length questions.now }
    requires questions { All (IsQuestion prepared.now) questions.now }
    requires workers { All (WorksAt desk.now prepared.now questions.now) workers.old }
    ensures { All (WorksAt desk.now prepared.now questions.now) workers.new }
{
    let count = workers.len();
    if count == 0 {
        return;
    }
    for_each_mut(
        rt,
        workers,
        count,
        &|_: usize, worker: &mut Worker|
            requires { (desk.now.count ≡ length questions.now) × All (IsQuestion prepared.now) questions.now
                × WorksAt desk.now prepared.now questions.now worker.now }
            ensures { WorksAt desk.entry.now prepared.entry.now questions.entry.now worker.exit.now }
        { worker.run(rt, desk, prepared, questions, watch) },
    );
}

// So many empty slots.
fn empty_slots(alloc: Global, count: usize) -> Result<Vec<Option<Reply>>, AllocError>
    ensures { IfOk result (λ slots. slots.items ≡ replicate count None) }
{
    let mut slots = Vec::with_capacity(alloc, count)?;
    for _ in 0..count {
        slots.push(None)?;
    }
    Ok(slots)
}

// Puts a reply into the slot of its question, or drops it where the slot is filled.
fn fill_slot(
    prepared: &Prepared,
    questions: &[Rows],
    slots: &mut [Option<Reply>],
    answered: Answered,
)
    requires answered { IsAnsweredAt prepared.now questions.now answered }
    requires slots { AreSlots prepared.now questions.now slots.old }
    ensures { AreSlots prepared.now questions.now slots.new }
{
    let Answered { question, reply } = answered;
    let slot = question as usize;
    if slots[slot].is_none() {
        slots[slot] = Some(reply);
    }
}

// Puts replies into the slots of their questions.
fn fill_slots(
    prepared: &Prepared,
    questions: &[Rows],
    slots: &mut [Option<Reply>],
    answered: Vec<Answered>,
)
    requires answered { All (IsAnsweredAt prepared.now questions.now) answered.items }
    requires slots { AreSlots prepared.now questions.now slots.old }
    ensures { AreSlots prepared.now questions.now slots.new }
{
    let mut answered = answered;
    while let Some(one) = answered.pop() {
        fill_slot(prepared, questions, slots, one);
    }
}

// Puts the replies of all workers into the slots of their questions.
fn gather(
    prepared: &Prepared,
    questions: &[Rows],
    slots: &mut [Option<Reply>],
    workers: Vec<Worker>,
    desk: &Desk,
)
    requires workers { All (WorksAt desk.now prepared.now questions.now) workers.items }
    requires slots { AreSlots prepared.now questions.now slots.old }
    ensures { AreSlots prepared.now questions.now slots.new }
{
    let mut workers = workers;
    while let Some(worker) = workers.pop() {
        let Worker {
            alloc: _alloc,
            taker: _taker,
            number: _number,
            answered,
        } = worker;
        fill_slots(prepared, questions, slots, answered);
    }
}

// The reply that was found to a question, or else an answer to it.
fn found_or_answered(
    alloc: Global,
    prepared: &Prepared,
    question: &Rows,
    found: Option<Reply>,
) -> Result<Reply, AllocError>
    requires question { IsQuestion prepared.now question.now }
    requires found { IfSome found (IsReply prepared.now question.now.matrix) }
    ensures { IfOk result (IsReply prepared.now question.now.matrix) }
{
    match found {
        Some(reply) => Ok(reply),
        None => prepared.answer(alloc, question),
    }
}

// What stands in the slots, and answers to the questions whose slots are empty.
fn complete(
    alloc: Global,
    prepared: &Prepared,
    questions: &[Rows],
    slots: Vec<Option<Reply>>,
) -> Result<Vec<Reply>, AllocError>
    requires questions { All (IsQuestion prepared.now) questions.now }
    requires slots { AreSlots prepared.now questions.now slots.items }
    ensures { IfOk result (λ replies. AreReplies prepared.now questions.now replies.items) }
{
    let mut slots = slots;
    let mut replies = Vec::with_capacity(alloc, questions.len())?;
    for k in 0..questions.len() {
        let found = slots[k].take();
        let reply = found_or_answered(alloc, prepared, &questions[k], found)?;
        replies.push(reply)?;
    }
    Ok(replies)
}

/// A reply to each question, in order, by a number of workers: each takes questions at a desk until none is left. The calling
/// thread answers what they left.
///
/// Beyond the answers it takes time and memory by the numbers of questions and workers.
pub fn answer_all<R: Threads + Wait + Sync, W: Watch>(
    rt: &R,
    alloc: Global,
    prepared: &Prepared,
    questions: &[Rows],
    workers: u32,
    watch: &W,
) -> Result<Vec<Reply>, AllocError>
    requires few { length questions.now < 2 ^ 32 }
    requires questions { All (IsQuestion prepared.now) questions.now }
    ensures { IfOk result (λ replies. AreReplies prepared.now questions.now replies.items) }
{
    let mut slots = empty_slots(alloc, questions.len())?;
    if questions.len() > 0 {
        let (desk, mut taker) = Desk::new(rt, alloc, questions.len() as u32)?;
        let mut team = team(rt, alloc, &desk, &mut taker, workers)?;
        run_all(rt, &desk, prepared, questions, team.as_mut_slice(), watch);
        gather(prepared, questions, slots.as_mut_slice(), team, &desk);
    }
    complete(alloc, prepared, questions, slots)
}
