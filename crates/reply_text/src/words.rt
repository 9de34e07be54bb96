//! The words of what is refused.

ghost use Rattle.std.specs.Prelude.{◌≡◌};
ghost use Rattle.reply_text.specs.Lines.{request_word as word_of_request, misfit_word as word_of_misfit};

use crate::errors::RequestField;
use step_cursor::MisfitField;

/// The word of a part of a request.
pub fn request_word(field: RequestField) -> &'static [u8]
    ensures { result.now ≡ word_of_request field }
{
    match field {
        RequestField::Shape => b"shape",
        RequestField::Extra => b"extra",
        RequestField::Start => b"start_block_num",
        RequestField::Stop => b"stop_block_num",
        RequestField::FinalOnly => b"final_blocks_only",
        RequestField::Cursor => b"cursor",
    }
}

/// The word of a part of a cursor.
pub fn misfit_word(field: MisfitField) -> &'static [u8]
    ensures { result.now ≡ word_of_misfit field }
{
    match field {
        MisfitField::Block => b"block",
        MisfitField::End => b"end",
        MisfitField::Lib => b"lib",
        MisfitField::Step => b"step",
        MisfitField::Seen => b"seen",
    }
}
