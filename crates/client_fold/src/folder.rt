//! The path of a client, step by step.

ghost use Rattle.std.specs.Prelude.{◌≡◌, ◌++◌, ◌∷◌, [], IfErr, OnOk, OnErr, IsOk, IsSome, IsTrue, reverse};
ghost use Rattle.std.specs.Option.{option_copied};
ghost use Rattle.chain_model.specs.Steps.{block_step, ref_of};
ghost use Rattle.chain_model.specs.Fold.{is_child as is_child_of, is_block, follows_last, after_new, after_newfinal, undo_last, after_final, after_step};
ghost use Rattle.client_fold.specs.declared.folder.FoldFault.TheVariants.{Mem};
ghost use Rattle.client_fold.specs.Folding.{folder_of, next_count as count_after, IsTaken, IsRefused, HasNoFold, takes_no_memory, first_of, follows_ref};

use block_record::{BlockRef, Slip};
use chain_model::Step;
use std::alloc::{AllocError, AllocFailed, Global};
use std::marker::Model;

/// Why a step was not taken.
#[derive(Clone, Copy, PartialEq, Eq, Debug)]
pub enum FoldFault {
    /// The step does not go on from what the client has. `at` is its index, counted from 0 among the
    /// steps that were taken.
    Illegal { at: u64 },
    /// There was no memory to keep the block.
    Mem,
}

impl From<AllocError> for FoldFault {
    ghost from_gives = { λ _ fault. fault ≡ Mem };

    fn from(_error: AllocError) -> FoldFault {
        FoldFault::Mem
    }
}

impl<T: Drop> From<AllocFailed<T>> for FoldFault {
    ghost from_gives = { λ _ fault. fault ≡ Mem };

    fn from(_error: AllocFailed<T>) -> FoldFault {
        FoldFault::Mem
    }
}

/// A client's path after its base, and how many of its blocks are final.
#[derive(Drop)]
pub struct Folder {
    base: Option<BlockRef>,
    path: Vec<BlockRef>,
    finals: u64,
    steps: u64,
}

impl Model for Folder {
    ghost use Rattle.std.specs.Prelude.{◌≤◌, length};
    ghost use Rattle.client_fold.specs.Folding.{FolderState, folder_of};

    ghost Value = { FolderState };

    ghost view = { λ f. folder_of f.base f.path.items f.finals f.steps };

    ghost invariant = { λ f. f.finals ≤ length f.path.items };
}

impl Folder {
    /// A client that has received nothing after its base. With no base, its first block may be any.
    pub fn new(alloc: Global, base: Option<BlockRef>) -> Folder
        ensures { result ≡ folder_of base [] 0 0 }
    {
        Folder {
            base,
            path: Vec::new(alloc),
            finals: 0,
            steps: 0,
        }
    }

    /// Takes a step with its block. After a refusal the folder is as before. An undo and a final step
    /// take no memory.
    pub fn apply(&mut self, step: Step, block: &Slip) -> Result<(), FoldFault>
        ensures taken { OnOk result
            (IsTaken self.old self.new (after_step self.old.fold (block_step step block.now))) }
        ensures refused { IfErr result (λ fault.
            IsRefused fault self.old.steps (after_step self.old.fold (block_step step block.now))) }
        ensures outright { IsTrue (takes_no_memory step)
            → IsSome (after_step self.old.fold (block_step step block.now)) → IsOk result }
        ensures same { OnErr result (self.new ≡ self.old) }
    {
        match step {
            Step::New => self.add(block),
            Step::Undo => self.undo(block),
            Step::Final => self.finalize(block),
            Step::NewFinal => self.add_final(block),
        }
    }

    /// The blocks after the base, the first one first.
    pub fn path(&self) -> &[BlockRef]
        ensures { result.now ≡ reverse self.now.fold.blocks }
    {
        self.path.as_slice()
    }

    /// How many of them are final, from the first on.
    pub fn finals(&self) -> u64
        ensures { result ≡ self.now.fold.finals }
    {
        self.finals
    }

    /// Whether the block is a child of the last one, which is the base where the path is empty.
    fn follows(&self, block: &Slip) -> bool
        ensures { result ≡ follows_last self.now.fold.base self.now.fold.blocks block.now }
    {
        match last_of(self.path.as_slice()) {
            Some(last) => is_child(last, block),
            None => follows_base(self.base.as_ref(), block),
        }
    }

    fn add(&mut self, block: &Slip) -> Result<(), FoldFault>
        ensures taken { OnOk result
            (IsTaken self.old self.new (after_new self.old.fold block.now)) }
        ensures refused { IfErr result
            (λ fault. IsRefused fault self.old.steps (after_new self.old.fold block.now)) }
        ensures same { OnErr result (self.new ≡ self.old) }
    {
        if !self.follows(block) {
            return Err(FoldFault::Illegal { at: self.steps });
        }
        push(block, &mut self.path)?;
        self.steps = next_count(self.steps);
        Ok(())
    }

    fn add_final(&mut self, block: &Slip) -> Result<(), FoldFault>
        ensures taken { OnOk result
            (IsTaken self.old self.new (after_newfinal self.old.fold block.now)) }
        ensures refused { IfErr result
            (λ fault. IsRefused fault self.old.steps (after_newfinal self.old.fold block.now)) }
        ensures same { OnErr result (self.new ≡ self.old) }
    {
        if !(self.follows(block) && self.finals == self.path.len() as u64) {
            return Err(FoldFault::Illegal { at: self.steps });
        }
        push(block, &mut self.path)?;
        self.finals += 1;
        self.steps = next_count(self.steps);
        Ok(())
    }

    fn undo(&mut self, block: &Slip) -> Result<(), FoldFault>
        ensures taken { OnOk result (IsTaken self.old self.new
            (undo_last self.old.fold.base self.old.fold.blocks self.old.fold.finals block.now)) }
        ensures refused { IfErr result (λ fault. HasNoFold fault self.old.steps
            (undo_last self.old.fold.base self.old.fold.blocks self.old.fold.finals block.now)) }
        ensures same { OnErr result (self.new ≡ self.old) }
    {
        if !is_at(last_of(self.path.as_slice()), block) || self.finals >= self.path.len() as u64 {
            return Err(FoldFault::Illegal { at: self.steps });
        }
        let _ = self.path.pop();
        self.steps = next_count(self.steps);
        Ok(())
    }

    fn finalize(&mut self, block: &Slip) -> Result<(), FoldFault>
        ensures taken { OnOk result
            (IsTaken self.old self.new (after_final self.old.fold block.now)) }
        ensures refused { IfErr result
            (λ fault. HasNoFold fault self.old.steps (after_final self.old.fold block.now)) }
        ensures same { OnErr result (self.new ≡ self.old) }
    {
        if !is_at(self.path.get(self.finals as usize), block) {
            return Err(FoldFault::Illegal { at: self.steps });
        }
        self.finals += 1;
        self.steps = next_count(self.steps);
        Ok(())
    }
}

/// The count of steps after one more.
#[tactic(auto, unfolding(crate::specs::Folding::next_count))]
fn next_count(steps: u64) -> u64
    ensures { result ≡ count_after steps }
{
    steps.saturating_add(1)
}

/// The last block of a path.
fn last_of(path: &[BlockRef]) -> Option<&BlockRef>
    ensures { option_copied result ≡ first_of (reverse path.now) }
{
    match path.split_last() {
        Some((last, _)) => Some(last),
        None => None,
    }
}

/// Whether the block names this one as its parent.
fn is_child(parent: &BlockRef, block: &Slip) -> bool
    ensures { result ≡ is_child_of parent.now.id parent.now.num block.now }
{
    block.parent_id == parent.id && block.parent_num == parent.num
}

/// Whether the block is a child of the base; with no base each is.
fn follows_base(base: Option<&BlockRef>, block: &Slip) -> bool
    ensures { result ≡ follows_ref (option_copied base.entry) block.now }
{
    match base {
        Some(base) => is_child(base, block),
        None => true,
    }
}

/// Whether the block is the one at the reference.
fn is_at(reference: Option<&BlockRef>, block: &Slip) -> bool
    ensures { result ≡ is_block (option_copied reference.entry) block.now }
{
    match reference {
        Some(r) => r.id == block.id && r.num == block.num,
        None => false,
    }
}

/// Appends the block.
fn push(block: &Slip, path: &mut Vec<BlockRef>) -> Result<(), FoldFault>
    ensures ok { OnOk result (path.new.items ≡ path.old.items ++ ref_of block.now ∷ []) }
    ensures err { IfErr result (λ fault. fault ≡ Mem) }
    ensures same { OnErr result (path.new.items ≡ path.old.items) }
{
    let id = block.id.clone()?;
    path.push(BlockRef { num: block.num, id })?;
    Ok(())
}
