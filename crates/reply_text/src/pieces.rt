//! The pieces of a line.

ghost use Rattle.std.specs.Prelude.{◌≡◌, ◌++◌, OnOk, OnErr};
ghost use Rattle.std.specs.Option.{option_copied};
ghost use Rattle.reply_text.specs.Lines.{ref_text};
ghost use Rattle.reply_text.specs.Pieces.{piece_text, pieces_text};

use block_record::BlockRef;
use std::alloc::AllocError;
use text_parts::{Part, push_part, push_parts};

/// A piece of a line.
#[derive(Clone, Copy)]
pub enum Piece<'a> {
    /// A text, a number, a payload or a digest.
    Plain(Part<'a>),
    /// A block by number and id, or `null`.
    Ref(Option<&'a BlockRef>),
}

/// Appends the pieces, one after another. Without memory the line stays as it is.
pub fn push_pieces(pieces: &[Piece<'_>], line: &mut Vec<u8>) -> Result<(), AllocError>
    ensures ok { OnOk result (line.new.items ≡ line.old.items ++ pieces_text pieces.now) }
    ensures err { OnErr result (line.new.items ≡ line.old.items) }
{
    let kept = line.len();
    for piece in pieces {
        if push_piece(*piece, line).is_err() {
            line.truncate(kept);
            return Err(AllocError);
        }
    }
    Ok(())
}

/// Appends one piece.
fn push_piece(piece: Piece<'_>, line: &mut Vec<u8>) -> Result<(), AllocError>
    ensures ok { OnOk result (line.new.items ≡ line.old.items ++ piece_text piece.entry) }
    ensures err { OnErr result (line.new.items ≡ line.old.items) }
{
    match piece {
        Piece::Plain(part) => push_part(part, line),
        Piece::Ref(block) => push_ref(block, line),
    }
}

/// Appends a block by number and id, or `null`.
fn push_ref(block: Option<&BlockRef>, line: &mut Vec<u8>) -> Result<(), AllocError>
    ensures ok { OnOk result
        (line.new.items ≡ line.old.items ++ ref_text (option_copied block.entry)) }
    ensures err { OnErr result (line.new.items ≡ line.old.items) }
{
    match block {
        Some(block) => push_block(block, line),
        None => line.extend_from_slice(b"null"),
    }
}

fn push_block(block: &BlockRef, line: &mut Vec<u8>) -> Result<(), AllocError>
    ensures ok { OnOk result (line.new.items ≡ line.old.items ++ ref_text (Some block.now)) }
    ensures err { OnErr result (line.new.items ≡ line.old.items) }
{
    let parts = [
        Part::Text(b"{\"num\":"),
        Part::Number(block.num),
        Part::Text(b",\"id\":\""),
        Part::Text(block.id.as_bytes()),
        Part::Text(b"\"}"),
    ];
    push_parts(parts.as_slice(), line)
}
