// Replies as they are written.
ghost use Rattle.std.specs.Prelude.{All};
ghost use Rattle.sms_text.specs.Writing.{Writes};
ghost use Rattle.batch_solve.specs.BatchFound.{IsSmallReply, replies_text, reply_text};

use kernel_solve::Reply;
use sms_text::{Sink, WriteFault, write_titled};

// Writes replies one behind another. It takes no memory.
pub(crate) fn write_replies<K: Sink>(out: &mut K, replies: &[Reply]) -> Result<(), WriteFault>
    requires { All IsSmallReply replies.now }
    ensures { Writes result (replies_text replies.now) (K.state out.old) (K.state out.new) }
{
    for reply in replies {
        write_reply(out, reply)?;
    }
    Ok(())
}

// Writes a reply.
fn write_reply<K: Sink>(out: &mut K, reply: &Reply) -> Result<(), WriteFault>
    requires { IsSmallReply reply.now }
    ensures { Writes result (reply_text reply.now) (K.state out.old) (K.state out.new) }
{
    match reply {
        Reply::Solution(x) => write_titled(out, "solution\n", x),
        Reply::Refuted(y) => write_titled(out, "no solution\n", y),
    }
}
