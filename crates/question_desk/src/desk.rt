// A desk at which threads take numbers.
ghost use Rattle.std.specs.Prelude.{◌≡◌, ◌≤◌, [], false, IfOk, OnOk};
ghost use Rattle.std.specs.Option.{MatchOption};
ghost use Rattle.crossbeam_channel.specs.Claims.{view, IsSeatAt};
ghost use Rattle.crossbeam_channel.specs.Ends.{sends_on};
ghost use Rattle.question_desk.specs.Desk.{TakesNumber, LeavesDrained, IsTakerOf};
ghost use Rattle.question_desk.specs.Rule.{known_first, known_filling};

use crate::desk_rule::{DeskLaw, DeskPart, End, Fill, Take};
use crate::known_numbers::KnownNumbers;
use crate::number_or_end::NumberOrEnd;
use crate::taker::Taker;
use crossbeam_channel::{Pass, RuledReceiver, RuledSender, bounded_with};
use std::alloc::{AllocError, Global};
use std::marker::Model;
use std::sync::Wait;

/// Numbers to be taken by any number of threads, each by just one of them: they lie in a channel, in ascending order.
///
/// Between any two steps its rule holds. Those that nobody took are the last ones; each number before them stands in just one
/// taker's list, and the lists hold no other numbers; each list rises; where a taker was told that no number is left, none is.
///
/// What lies behind the numbers are ends. A receive that finds nothing leaves no trace in the rule, so a taker that finds nothing
/// puts an end, and who takes one knows that no number is left.
#[derive(Drop)]
pub struct Desk {
    sender: RuledSender<NumberOrEnd, KnownNumbers, DeskLaw>,
    receiver: RuledReceiver<NumberOrEnd, KnownNumbers, DeskLaw>,
    count: u32,
}

impl Model for Desk {
    ghost use Rattle.std.specs.Prelude.{◌≡◌};
    ghost use Rattle.crossbeam_channel.specs.Claims.{IsKeyed};
    ghost use Rattle.crossbeam_channel.specs.Ends.{sends_on, receives_on};
    ghost use Rattle.question_desk.specs.Desk.{DeskState};

    ghost Value = { DeskState };

    ghost view = { λ d. record {
      table = (sends_on d.sender).stamps.shared.table_id;
      keys = (sends_on d.sender).stamps.shared.key;
      count = d.count;
    } };

    ghost invariant = { λ d. (receives_on d.receiver ≡ sends_on d.sender) × IsKeyed (sends_on d.sender) };
}

impl Desk {
    /// A desk with the numbers 0 to count - 1, and its first taker. It takes time and memory by the count; no other call takes
    /// memory.
    pub fn new<R: Wait>(rt: &R, alloc: Global, count: u32) -> Result<(Desk, Taker), AllocError>
        requires { 1 ≤ count }
        ensures desk { IfOk result (λ r. r.0.count ≡ count) }
        ensures taker { IfOk result (λ r. IsTakerOf r.0 r.1 × (r.1.taken ≡ []) × (r.1.drained ≡ false)) }
    {
        let (sender, receiver, mut pass) = bounded_with::<
            NumberOrEnd,
            KnownNumbers,
            DeskLaw,
            Global,
        >(alloc, count as usize)?;
        fill(rt, &sender, &mut pass, count)?;
        let pass = sender.another::<DeskPart>(&mut pass);
        let desk = Desk {
            sender,
            receiver,
            count,
        };
        Ok((desk, Taker { pass }))
    }

    /// A second taker, which was given nothing. It isn't refused.
    pub fn split<R: Wait>(&self, _rt: &R, taker: &mut Taker) -> Result<Taker, AllocError>
        requires { IsTakerOf self.now taker.old }
        ensures same { taker.new ≡ taker.old }
        ensures taker { IfOk result (λ t. IsTakerOf self.now t × (t.taken ≡ []) × (t.drained ≡ false)) }
    {
        let pass = self.sender.another::<DeskPart>(&mut taker.pass);
        Ok(Taker { pass })
    }

    /// The least number that nobody took, which is the taker's from now on; `None` where none is left. It waits only while another
    /// thread is in the middle of a step.
    pub fn take<R: Wait>(&self, rt: &R, taker: &mut Taker) -> Option<u32>
        requires { IsTakerOf self.now taker.old }
        ensures desk { IsTakerOf self.now taker.new }
        ensures taken { MatchOption result (LeavesDrained taker.old taker.new)
            (TakesNumber taker.old taker.new) }
    {
        for _ in rt.forever() {
            match self.receiver.try_recv_as::<Take, R>(rt, &mut taker.pass) {
                Ok(NumberOrEnd::Number(number)) => return Some(number),
                Ok(NumberOrEnd::End) => return None,
                // Where it isn't put, it is tried again.
                Err(_) => {
                    let _ = self
                        .sender
                        .try_send_as::<End, R>(rt, &mut taker.pass, NumberOrEnd::End);
                }
            }
        }
        unreachable!()
    }
}

// Puts the numbers into a new channel.
fn fill<R: Wait>(
    rt: &R,
    sender: &RuledSender<NumberOrEnd, KnownNumbers, DeskLaw>,
    pass: &mut Pass<NumberOrEnd, KnownNumbers>,
    count: u32,
) -> Result<(), AllocError>
    requires channel { IsSeatAt (sends_on sender.now) pass.old }
    requires first { view pass.old ≡ known_first }
    ensures channel { IsSeatAt (sends_on sender.now) pass.new }
    ensures full { OnOk result (view pass.new ≡ known_filling count) }
{
    for number in 0..count {
        // There is room, and both ends are there.
        if sender
            .send_as::<Fill, R>(rt, pass, NumberOrEnd::Number(number))
            .is_err()
        {
            return Err(AllocError);
        }
    }
    Ok(())
}
