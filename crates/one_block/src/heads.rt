//! The type of a file, and its records.

ghost use Rattle.std.specs.Prelude.{◌≡◌};
ghost use Rattle.one_block.specs.SingleSteps.{HeadAnswers, Decodes};

use crate::containers::{copy_type, read_record};
use crate::file_faults::FileFault;
use block_record::{Block, RecordFault, TypeName};
use std::alloc::Global;

/// The type of a file, where it is that of the files before. A file without a whole header is bad at
/// this end.
pub fn head_type(
    found: Option<TypeName>,
    kept: &Option<TypeName>,
    end: u64,
) -> Result<TypeName, FileFault>
    ensures { HeadAnswers found kept.now end result }
{
    match found {
        None => Err(FileFault::Bad { at: end }),
        Some(offered) => match kept {
            None => Ok(offered),
            Some(held) => same_type(held, offered),
        },
    }
}

/// The offered type, where it is the held one.
fn same_type(held: &TypeName, offered: TypeName) -> Result<TypeName, FileFault>
    ensures { HeadAnswers (Some offered) (Some held.now) 0 result }
{
    if *held == offered {
        Ok(offered)
    } else {
        let held = copy_type(held)?;
        Err(FileFault::OtherType { held, offered })
    }
}

/// The block of a record that stands at this place.
pub fn decode_at(alloc: Global, bytes: &[u8], place: u64) -> Result<Block, FileFault>
    ensures { Decodes bytes.now place result }
{
    match read_record(alloc, bytes) {
        Ok(block) => Ok(block),
        Err(RecordFault::BadRecord { at }) => Err(FileFault::Bad {
            at: place.saturating_add(at as u64),
        }),
        Err(RecordFault::Mem) => Err(FileFault::Mem),
    }
}
