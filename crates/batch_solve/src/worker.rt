// A worker that answers questions.
ghost use Rattle.std.specs.Prelude.{All, ◌≡◌, ◌<◌, length};
ghost use Rattle.batch_solve.specs.Replies.{IsAnsweredAt, IsQuestion, WorksAt};

use crate::watch::Watch;
use kernel_solve::{Prepared, Reply};
use question_desk::{Desk, Taker};
use sparse_rows::Rows;
use std::alloc::{AllocError, Global};
use std::sync::Wait;

// A reply, and the number of its question.
#[derive(Drop)]
pub struct Answered {
    pub question: u32,
    pub reply: Reply,
}

// What one worker has: memory, a taker at the desk, its number, and the replies that it found.
#[derive(Drop)]
pub(crate) struct Worker {
    pub(crate) alloc: Global,
    pub(crate) taker: Taker,
    pub(crate) number: u32,
    pub(crate) answered: Vec<Answered>,
}

impl Worker {
    // Answers a question, and keeps the reply.
    fn keep_answer(
        &mut self,
        prepared: &Prepared,
        questions: &[Rows],
        question: u32,
    ) -> Result<(), AllocError>
        requires questions { All (IsQuestion prepared.now) questions.now }
        requires inside { question < length questions.now }
        requires kept { All (IsAnsweredAt prepared.now questions.now) self.old.answered.items }
        ensures taker { self.new.taker ≡ self.old.taker }
        ensures kept { All (IsAnsweredAt prepared.now questions.now) self.new.answered.items }
    {
        let reply = prepared.answer(self.alloc, &questions[question as usize])?;
        self.answered.push(Answered { question, reply })?;
        Ok(())
    }

    // Takes questions and answers them, until none is left. Where memory is refused it leaves its question, and all further ones.
    pub(crate) fn run<R: Wait, W: Watch>(
        &mut self,
        rt: &R,
        desk: &Desk,
        prepared: &Prepared,
        questions: &[Rows],
        watch: &W,
    )
        requires count { desk.now.count ≡ length questions.now }
        requires questions { All (IsQuestion prepared.now) questions.now }
        requires worker { WorksAt desk.now prepared.now questions.now self.old }
        ensures { WorksAt desk.now prepared.now questions.now self.new }
    {
        for _ in rt.forever() {
            let Some(question) = desk.take(rt, &mut self.taker) else {
                return;
            };
            watch.taken(self.number, question);
            if self.keep_answer(prepared, questions, question).is_err() {
                return;
            }
        }
    }
}
