//! Names of readers.

ghost use Rattle.std.specs.Prelude.{◌≡◌, IfOk, MatchOption};
ghost use Rattle.std.specs.List.{list_all};
ghost use Rattle.block_record.specs.Texts.{IsReaderName, is_reader_text, is_reader_byte as is_byte_of_reader};

use std::alloc::{AllocError, Global};
use std::marker::Model;

/// The name of a reader: 1 to 64 lower-case ASCII letters, digits or `_`. Contracts see it as its
/// bytes.
#[derive(Clone, Debug, Drop)]
pub struct ReaderName {
    bytes: Vec<u8>,
}

impl Model for ReaderName {
    ghost use Rattle.std.specs.Prelude.{List, ℕ};
    ghost use Rattle.block_record.specs.Texts.{IsReaderName};

    ghost Value = { List ℕ };

    ghost view = { λ name. name.bytes.items };

    ghost invariant = { λ name. IsReaderName name.bytes.items };
}

impl PartialEq for ReaderName {
    ghost use Rattle.std.specs.Str.{bytes_eq};
    ghost use Rattle.std.specs.Cmp.{partial_equiv_from_equiv};
    ghost use Rattle.std.specs.Cmp.Lexicographic.{nat_list_eq_equiv};

    ghost eq = { bytes_eq };

    ghost laws = { partial_equiv_from_equiv nat_list_eq_equiv };

    fn eq(&self, other: &ReaderName) -> bool {
        self.bytes == other.bytes
    }
}

impl Eq for ReaderName {
    ghost use Rattle.std.specs.Cmp.Lexicographic.{nat_list_eq_equiv};

    ghost laws = { nat_list_eq_equiv };
}

impl ReaderName {
    /// The name with this text, or none where the text is no name of a reader.
    pub fn new(alloc: Global, text: &[u8]) -> Result<Option<ReaderName>, AllocError>
        ensures { IfOk result
            (λ found. MatchOption found (¬ (IsReaderName text.now)) (λ name. name ≡ text.now)) }
    {
        if !is_reader(text) {
            return Ok(None);
        }
        let bytes = Vec::from_slice(alloc, text)?;
        Ok(Some(ReaderName { bytes }))
    }

    /// The text of the name.
    pub fn as_bytes(&self) -> &[u8]
        ensures text { result.now ≡ self.now }
        ensures name { IsReaderName self.now }
    {
        self.bytes.as_slice()
    }
}

/// Whether the text is a name of a reader.
fn is_reader(text: &[u8]) -> bool
    ensures { result ≡ is_reader_text text.now }
{
    !text.is_empty() && text.len() <= 64 && has_reader_bytes(text)
}

fn has_reader_bytes(text: &[u8]) -> bool
    ensures { result ≡ list_all is_byte_of_reader text.now }
{
    text.iter().all(|byte| is_reader_byte(*byte))
}

fn is_reader_byte(byte: u8) -> bool
    ensures { result ≡ is_byte_of_reader byte }
{
    byte.is_ascii_lowercase() || byte.is_ascii_digit() || byte == b'_'
}
