//! Memory for slips that are copied later, when none may be taken.

ghost use Rattle.std.specs.Prelude.{◌≡◌};

use crate::blocks::Slip;
use crate::ids::IdBuffer;
use std::alloc::{AllocError, Global};

/// Memory for one slip, whatever its ids.
#[derive(Debug, Drop)]
pub struct SlipBuffer {
    id: IdBuffer,
    parent_id: IdBuffer,
}

impl SlipBuffer {
    /// Takes the memory.
    pub fn new(alloc: Global) -> Result<SlipBuffer, AllocError> {
        Ok(SlipBuffer {
            id: IdBuffer::new(alloc)?,
            parent_id: IdBuffer::new(alloc)?,
        })
    }

    /// A copy of the slip. It takes no memory.
    pub fn copy(self, slip: &Slip) -> Slip
        ensures { result ≡ slip.now }
    {
        Slip {
            num: slip.num,
            id: self.id.copy(&slip.id),
            parent_num: slip.parent_num,
            parent_id: self.parent_id.copy(&slip.parent_id),
            lib_num: slip.lib_num,
            time: slip.time,
            length: slip.length,
            digest: slip.digest,
        }
    }
}
