//! What lines say.

ghost use Rattle.std.specs.Prelude.{◌≡◌, IfOk, Err, Ok};
ghost use Rattle.block_record.specs.Words.{Unless};
ghost use Rattle.reply_text.specs.Replies.{Reply as Printed};
ghost use Rattle.reply_text.specs.Values.{IsReadAs};
ghost use Rattle.reply_reader.specs.Texts.{IsReplyText, read_as};
ghost use Rattle.reply_reader.specs.declared.replies.Reply.{Reply};
ghost use Rattle.reply_reader.specs.declared.replies.ReplyFault;

use crate::lines::read_line;
use crate::replies::{Reply, ReplyFault};
use std::alloc::Global;

/// What a line says. `line` has no LF; of an error the reply keeps it whole. A payload is decoded
/// into the memory that the block keeps.
pub fn read_reply(alloc: Global, line: &[u8]) -> Result<Reply, ReplyFault>
    // What is read is what the line says, and each text of a reply is read as that reply.
    ensures text { IfOk result (λ reply. IsReplyText line.now reply) }
    ensures back { (reply : Reply) → IsReplyText line.now reply
        → Unless ReplyFault.Mem result (result ≡ Ok reply) }

    // A printed line, without its LF, is read as what was printed.
    ensures printed { (printed : Printed) → IsReadAs line.now printed
        → Unless ReplyFault.Mem result (result ≡ Ok (read_as printed line.now)) }

    // A line is refused only where it says nothing.
    ensures fault { result ≡ Err ReplyFault.BadReply
        → (reply : Reply) → ¬ (IsReplyText line.now reply) }
{
    read_line(alloc, line)
}
