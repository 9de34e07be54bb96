//! The kind of the nodes.

ghost use Rattle.std.specs.Prelude.{◌≡◌, List, None, length, ℕ, IfOk, true};
ghost use Rattle.std.specs.Option.{is_some, option_or};
ghost use Rattle.block_record.specs.declared.blocks.Slip.{Slip as SlipOf};
ghost use Rattle.relay_model.specs.Chronicles.{kind_added};
ghost use Rattle.relay_model.specs.Offers.{kind_after};
ghost use Rattle.block_relay.specs.Chronicle.{kind_entry};

use crate::answers::KindFault;
use block_record::{Kind, TypeName, Version};
use std::alloc::{AllocError, Global};

/// The two types, or that there was no memory to tell them.
pub fn kind_clash(held: &Kind, offered: &Kind) -> KindFault
    ensures { (h o : List ℕ) → result ≡ KindFault.KindClash h o
        → (h ≡ held.now.block_type) × (o ≡ offered.now.block_type) }
{
    match two_types(held, offered) {
        Ok((held, offered)) => KindFault::KindClash { held, offered },
        Err(_) => KindFault::Mem,
    }
}

pub fn copy_kind(kind: &Kind) -> Result<Kind, AllocError>
    ensures { IfOk result (λ k. k ≡ kind.now) }
{
    let block_type = kind.block_type.clone()?;
    Ok(Kind {
        version: kind.version,
        block_type,
    })
}

fn two_types(held: &Kind, offered: &Kind) -> Result<(TypeName, TypeName), AllocError>
    ensures { IfOk result
        (λ p. (p.0 ≡ held.now.block_type) × (p.1 ≡ offered.now.block_type)) }
{
    let held = held.block_type.clone()?;
    let offered = offered.block_type.clone()?;
    Ok((held, offered))
}

/// The kind that a root brings where none is kept: that of nodes that tell none.
pub fn kind_of_root(
    alloc: Global,
    len: u64,
    kept: &Option<Kind>,
) -> Result<Option<Kind>, AllocError>
    ensures first { IfOk result (λ root. is_some root ≡ true → kept.now ≡ None) }
    ensures added { (older : List SlipOf) → len ≡ length older
        → IfOk result (λ root. kind_entry root ≡ kind_added kept.now older) }
    ensures kind { (older : List SlipOf) → len ≡ length older
        → IfOk result (λ root. option_or root kept.now ≡ kind_after kept.now older) }
{
    if len != 0 || kept.is_some() {
        return Ok(None);
    }
    let block_type = TypeName::new(alloc, b"-")?.unwrap();
    Ok(Some(Kind {
        version: Version::V3,
        block_type,
    }))
}
