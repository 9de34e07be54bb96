//! The opening line of a run.

ghost use Rattle.std.specs.Prelude.{◌≡◌, IfOk, IfSome, Some};
ghost use Rattle.block_record.specs.Kinds.{same_kind};
ghost use Rattle.block_record.specs.Texts.{IsTypeName};
ghost use Rattle.fire_lines.specs.Parts.{words_left};
ghost use Rattle.fire_lines.specs.Line.{version_of, kind_of, kind_named};

use crate::words::Words;
use block_record::{Kind, TypeName, Version, is_type_name};
use std::alloc::{AllocError, Global};

/// What an opening line names, with a type of blocks that isn't copied yet.
#[derive(Clone, Copy)]
pub struct KindText<'a> {
    pub version: Version,
    pub block_type: &'a [u8],
}

/// The kind that the words after `FIRE INIT` begin with. Further words are passed over.
pub fn read_kind<'a>(words: &mut Words<'a>) -> Option<KindText<'a>>
    ensures value { kind_named result ≡ kind_of (words_left words.old) }
    ensures named { IfSome result (λ named. IsTypeName named.block_type.now) }
{
    let version = read_version(words.next_word()?)?;
    let block_type = words.next_word()?;
    if is_type_name(block_type) {
        Some(KindText {
            version,
            block_type,
        })
    } else {
        None
    }
}

fn read_version(word: &[u8]) -> Option<Version>
    ensures { result ≡ version_of word.now }
{
    if word == b"1.0".as_slice() {
        Some(Version::V1)
    } else if word == b"3.0".as_slice() {
        Some(Version::V3)
    } else {
        None
    }
}

impl KindText<'_> {
    /// Whether this is what the kind says.
    pub fn is_kind(&self, kind: &Kind) -> bool
        ensures { result ≡ same_kind kind.now
            (record { version = self.now.version; block_type = self.now.block_type.now }) }
    {
        kind.version == self.version && kind.block_type.as_bytes() == self.block_type
    }

    /// The kind, with a copy of its type of blocks.
    pub fn to_kind(&self, alloc: Global) -> Result<Kind, AllocError>
        requires { IsTypeName self.now.block_type.now }
        ensures { IfOk result (λ kind. Some kind ≡ kind_named (Some self.now)) }
    {
        let Some(block_type) = TypeName::new(alloc, self.block_type)? else {
            unreachable!();
        };
        Ok(Kind {
            version: self.version,
            block_type,
        })
    }
}
