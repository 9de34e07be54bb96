//! What is kept beside the relay while a shelf is loaded.

ghost use Rattle.std.specs.Prelude.{◌≡◌, ◌+◌, ◌∷◌, [], IfSome, OnErr, OnOk, map, reverse};
ghost use Rattle.std.specs.Option.{is_some};
ghost use Rattle.block_record.specs.Slips.{slip as slip_of_block};
ghost use Rattle.dbin_file.specs.Contents.{told};
ghost use Rattle.relay_model.specs.Soundness.{IsBlock};
ghost use Rattle.shelf_load.specs.Asides.{Aside, put, put_seen};

use crate::put_by::PutBy;
use block_record::{Block, Slip};
use std::alloc::{AllocError, Global};
use std::marker::Model;
use std::sync::Arc;

/// What is kept beside the relay while a shelf is loaded. Contracts see it with what came last first.
#[derive(Drop)]
pub struct LeftOut {
    /// The blocks that were put by, in the order in which they were taken.
    put_by: Vec<PutBy>,
    /// The blocks of stored files that were not in the history when they had been taken.
    late: Vec<Slip>,
    /// How many blocks were `Early` or `Stale` when they were taken, or the greatest number of the type
    /// where there are more.
    passed: u64,
}

impl Model for LeftOut {
    ghost use Rattle.std.specs.Prelude.{map, reverse};
    ghost use Rattle.shelf_load.specs.Asides.{Aside, put_seen};

    ghost Value = { Aside };

    ghost view = { λ t. record {
      put_by = reverse (map put_seen t.put_by.items);
      late = reverse t.late.items;
      passed = t.passed;
    } };
}

impl LeftOut {
    /// Nothing.
    pub fn new(alloc: Global) -> LeftOut
        ensures { result ≡ record { put_by = []; late = []; passed = 0 } }
    {
        LeftOut {
            put_by: Vec::new(alloc),
            late: Vec::new(alloc),
            passed: 0,
        }
    }

    /// The blocks that were put by, in the order in which they were taken.
    pub fn put_by(&self) -> &[PutBy]
        ensures { reverse (map put_seen result.now) ≡ self.now.put_by }
    {
        self.put_by.as_slice()
    }

    /// The blocks of stored files that were not in the history when they had been taken, in that order.
    pub fn late(&self) -> &[Slip]
        ensures { reverse result.now ≡ self.now.late }
    {
        self.late.as_slice()
    }

    /// How many blocks were `Early` or `Stale` when they were taken.
    pub fn passed(&self) -> u64
        ensures { result ≡ self.now.passed }
    {
        self.passed
    }

    /// Counts so many as `Early` or `Stale`.
    pub fn count_passed(&mut self, more: u64)
        ensures { self.new ≡ record self.old { passed = told (self.old.passed + more) } }
    {
        self.passed = self.passed.saturating_add(more);
    }

    /// Adds a block that is put by.
    pub fn add_put_by(&mut self, slip: Slip, block: Option<Arc<Block>>) -> Result<(), AllocError>
        requires own { IfSome block (λ b. slip ≡ slip_of_block b.value) }
        requires fits { IsBlock slip }
        ensures ok { OnOk result (self.new
            ≡ record self.old { put_by = put slip (is_some block) ∷ self.old.put_by }) }
        ensures err { OnErr result (self.new ≡ self.old) }
    {
        self.put_by.push(PutBy { slip, block })?;
        Ok(())
    }

    /// Adds a block that was not in the history when it had been taken.
    pub fn add_late(&mut self, slip: Slip) -> Result<(), AllocError>
        ensures ok { OnOk result (self.new
            ≡ record self.old { late = slip ∷ self.old.late }) }
        ensures err { OnErr result (self.new ≡ self.old) }
    {
        self.late.push(slip)?;
        Ok(())
    }
}
