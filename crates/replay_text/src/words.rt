//! The words of conflicts and of bad lines.

ghost use Rattle.std.specs.Prelude.{◌≡◌};
ghost use Rattle.steps_command.specs.ErrorLines.{kind_word as word_of_kind, fault_words as words_of_fault, fault_place as place_of_fault, fault_field as field_of_fault};
ghost use Rattle.text_parts.specs.Parts.{part_text};

use fire_lines::LineFault;
use relay_model::ConflictKind;
use text_parts::Part;

/// The word of a kind of conflict.
pub fn kind_word(kind: ConflictKind) -> &'static [u8]
    ensures { result.now ≡ word_of_kind kind }
{
    match kind {
        ConflictKind::Id => b"id",
        ConflictKind::Parent => b"parent",
        ConflictKind::Finality => b"finality",
    }
}

/// What is wrong with a line, without its place.
pub fn fault_words(fault: LineFault) -> &'static [u8]
    ensures { result.now ≡ words_of_fault fault }
{
    match fault {
        LineFault::TooLong { .. } => b"too long",
        LineFault::BadInit { .. } => b"bad init",
        LineFault::InitChanged { .. } => b"init changed",
        LineFault::NoInit { .. } => b"no init",
        LineFault::BadField { .. } => b"bad field ",
        LineFault::Mem => b"no memory",
    }
}

/// The number of the bad line, from 1.
pub fn fault_place(fault: LineFault) -> u64
    ensures { result ≡ place_of_fault fault }
{
    match fault {
        LineFault::TooLong { line }
        | LineFault::BadInit { line }
        | LineFault::InitChanged { line }
        | LineFault::NoInit { line }
        | LineFault::BadField { line, .. } => line,
        LineFault::Mem => 0,
    }
}

/// The number of a bad field, and nothing for each other fault.
pub fn fault_field(fault: LineFault) -> Part<'static>
    ensures { part_text result ≡ field_of_fault fault }
{
    match fault {
        LineFault::BadField { field, .. } => Part::Number(u64::from(field)),
        _ => Part::Text(b""),
    }
}
