//! Ids of blocks.

ghost use Rattle.std.specs.Prelude.{◌≡◌, ◌≤◌, [], IfOk, MatchOption, vec_capacity};
ghost use Rattle.std.specs.List.{list_all};
ghost use Rattle.block_record.specs.declared.ids.TheConstants.{ID_BYTES_MAX};
ghost use Rattle.block_record.specs.Texts.{IsId, is_id_text, is_id_byte as is_byte_of_id};

use std::alloc::{AllocError, Global};
use std::hash::{Hash, Hasher};
use std::marker::Model;

/// The most bytes that an id has.
const ID_BYTES_MAX: usize = 128;

/// The id of a block: 1 to 128 ASCII letters, digits or `_`. Contracts see it as its bytes.
#[derive(Clone, Debug, Drop)]
pub struct Id {
    bytes: Vec<u8>,
}

impl Model for Id {
    ghost use Rattle.std.specs.Prelude.{List, ℕ};
    ghost use Rattle.block_record.specs.Texts.{IsId};

    ghost Value = { List ℕ };

    ghost view = { λ id. id.bytes.items };

    ghost invariant = { λ id. IsId id.bytes.items };
}

impl PartialEq for Id {
    ghost use Rattle.block_record.specs.Ids.{same_id, same_id_partial_equiv};

    ghost eq = { same_id };

    ghost laws = { same_id_partial_equiv };

    #[tactic(auto, unfolding(crate::specs::Ids::same_id))]
    fn eq(&self, other: &Id) -> bool {
        self.bytes == other.bytes
    }
}

impl Eq for Id {
    ghost use Rattle.block_record.specs.Ids.{same_id_equiv};

    ghost laws = { same_id_equiv };
}

impl Hash for Id {
    ghost use Rattle.std.specs.Prelude.{[], ◌∷◌};
    ghost use Rattle.block_record.specs.Ids.{same_id_hash};

    ghost hash_input = { λ id. id ∷ [] };

    ghost respects_eq = { same_id_hash.fed };

    /// The whole id in one write.
    fn hash<H: Hasher>(&self, state: &mut H) {
        state.write(self.bytes.as_slice());
    }
}

impl Id {
    /// The id with this text, or none where the text is no id.
    pub fn new(alloc: Global, text: &[u8]) -> Result<Option<Id>, AllocError>
        ensures { IfOk result (λ found. MatchOption found (¬ (IsId text.now)) (λ id. id ≡ text.now)) }
    {
        if !is_id(text) {
            return Ok(None);
        }
        let bytes = Vec::from_slice(alloc, text)?;
        Ok(Some(Id { bytes }))
    }

    /// The text of the id.
    pub fn as_bytes(&self) -> &[u8]
        ensures text { result.now ≡ self.now }
        ensures id { IsId self.now }
    {
        self.bytes.as_slice()
    }
}

/// Memory for one id, whatever its text.
#[derive(Debug, Drop)]
pub struct IdBuffer {
    bytes: Vec<u8>,
    ghost empty: { bytes.items ≡ [] },
    ghost wide: { ID_BYTES_MAX ≤ vec_capacity bytes },
}

impl IdBuffer {
    /// Takes the memory.
    pub fn new(alloc: Global) -> Result<IdBuffer, AllocError> {
        let bytes = Vec::with_capacity(alloc, ID_BYTES_MAX)?;
        Ok(IdBuffer { bytes })
    }

    /// A copy of the id. It takes no memory.
    pub fn copy(self, id: &Id) -> Id
        ensures { result ≡ id.now }
    {
        let mut bytes = self.bytes;
        bytes.extend_from_slice(id.as_bytes()).unwrap();
        Id { bytes }
    }
}

/// Whether the text is an id.
pub fn is_id(text: &[u8]) -> bool
    ensures { result ≡ is_id_text text.now }
{
    !text.is_empty() && text.len() <= ID_BYTES_MAX && has_id_bytes(text)
}

/// Whether each byte may stand in an id. It reads all of them, which the compiler makes wide.
fn has_id_bytes(text: &[u8]) -> bool
    ensures { result ≡ list_all is_byte_of_id text.now }
{
    let mut all = true;
    for byte in text {
        all &= is_id_byte(*byte);
    }
    all
}

fn is_id_byte(b: u8) -> bool
    ensures { result ≡ is_byte_of_id b }
{
    b.is_ascii_alphanumeric() | (b == b'_')
}
