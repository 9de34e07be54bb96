//! Types of blocks.

ghost use Rattle.std.specs.Prelude.{◌≡◌, ◌&&◌, IfOk, MatchOption, nat_lt};
ghost use Rattle.std.specs.List.{list_all};
ghost use Rattle.block_record.specs.Texts.{IsTypeName, is_type_text, is_visible_byte};

use std::alloc::{AllocError, Global};
use std::marker::Model;

/// The type of a node's blocks, as `sf.ethereum.type.v2.Block`: 1 to 255 bytes from 0x21 to 0x7e.
/// Contracts see it as its bytes.
#[derive(Clone, Debug, Drop)]
pub struct TypeName {
    bytes: Vec<u8>,
}

impl Model for TypeName {
    ghost use Rattle.std.specs.Prelude.{List, ℕ};
    ghost use Rattle.block_record.specs.Texts.{IsTypeName};

    ghost Value = { List ℕ };

    ghost view = { λ name. name.bytes.items };

    ghost invariant = { λ name. IsTypeName name.bytes.items };
}

impl PartialEq for TypeName {
    ghost use Rattle.std.specs.Str.{bytes_eq};
    ghost use Rattle.std.specs.Cmp.{partial_equiv_from_equiv};
    ghost use Rattle.std.specs.Cmp.Lexicographic.{nat_list_eq_equiv};

    ghost eq = { bytes_eq };

    ghost laws = { partial_equiv_from_equiv nat_list_eq_equiv };

    fn eq(&self, other: &TypeName) -> bool {
        self.bytes == other.bytes
    }
}

impl Eq for TypeName {
    ghost use Rattle.std.specs.Cmp.Lexicographic.{nat_list_eq_equiv};

    ghost laws = { nat_list_eq_equiv };
}

impl TypeName {
    /// The type with this text, or none where the text is no type of blocks.
    pub fn new(alloc: Global, text: &[u8]) -> Result<Option<TypeName>, AllocError>
        ensures { IfOk result
            (λ found. MatchOption found (¬ (IsTypeName text.now)) (λ name. name ≡ text.now)) }
    {
        if !is_type_name(text) {
            return Ok(None);
        }
        let bytes = Vec::from_slice(alloc, text)?;
        Ok(Some(TypeName { bytes }))
    }

    /// The text of the type.
    pub fn as_bytes(&self) -> &[u8]
        ensures text { result.now ≡ self.now }
        ensures name { IsTypeName self.now }
    {
        self.bytes.as_slice()
    }
}

/// Whether the text is a type of blocks.
pub fn is_type_name(text: &[u8]) -> bool
    ensures { result ≡ is_type_text text.now }
{
    !text.is_empty() && text.len() <= 255 && is_visible(text)
}

fn is_visible(text: &[u8]) -> bool
    ensures { result ≡ list_all is_visible_byte text.now }
{
    text.iter().all(|byte| 0x20 < *byte && *byte < 0x7f)
}
