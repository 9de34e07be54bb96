//! The fork database.

ghost use Rattle.std.specs.Prelude.{◌≡◌, ◌+◌, ◌<◌, ◌≤◌, [], length, reverse, OnOk, OnErr, IfOk, IfSome, IsOk, Some, None, Ok, Err, set, ℕ};
ghost use Rattle.std.specs.List.{slice_get};
ghost use Rattle.std.specs.Option.{option_copied, option_map};
ghost use Rattle.block_record.specs.declared.blocks.Slip.{Slip as SlipOf};
ghost use Rattle.block_record.specs.Slips.{slip as slip_of_block};
ghost use Rattle.chain_model.specs.Ancestry.{ancestry, find_id, IsHistory};
ghost use Rattle.chain_model.specs.Finality.{final_tip as final_tip_in, on_path as on_path_in, ClaimsAgree};
ghost use Rattle.chain_model.specs.Steps.{head as head_in};
ghost use Rattle.block_tree.specs.Places.{place_of, slip_at, slip_of, meeting};
ghost use Rattle.fork_db.specs.Claims.{IsLinkOf};
ghost use Rattle.fork_db.specs.Forks.{IsAppended};
ghost use Rattle.fork_db.specs.Verdicts.{verdict_of, fits};

use crate::claims::{Linked, claim_place, later_tip};
use crate::heads::Heads;
use crate::held::HeldBlocks;
use block_record::{Block, Id, Slip};
use block_tree::{BLOCKS_MAX, BlockTree};
use link_rows::Uncounted;
use std::alloc::{AllocError, Global};
use std::marker::Model;
use std::sync::Arc;

/// Whether a block may come next, or the first condition that it does not meet.
#[derive(Clone, Copy, PartialEq, Eq, Debug)]
pub enum Verdict {
    /// It may.
    Fits,
    /// Its id is there already.
    IdHeld,
    /// Its parent is missing.
    NoParent,
    /// Its parent has another number than it names, or one that is not below its own.
    ParentNumber,
    /// What it claims to be final and the final tip are not on one path.
    Disagrees,
}

/// Why a block was not appended, or room was not made.
#[derive(Clone, Copy, PartialEq, Eq, Debug)]
pub enum ForkFault {
    /// More blocks than the limit; so many are there.
    Full { len: u64 },
    /// There was no memory.
    Mem,
}

impl From<AllocError> for ForkFault {
    ghost use Rattle.fork_db.specs.declared.db.ForkFault.TheVariants.{Mem};

    ghost from_gives = { λ _ fault. fault ≡ Mem };

    fn from(_: AllocError) -> ForkFault {
        ForkFault::Mem
    }
}

/// A history with forks. Contracts see the history with its newest block first, the blocks that are
/// held by place, for how many more blocks there is room, and the limit.
#[derive(Drop)]
pub struct ForkDb {
    pub(crate) tree: BlockTree,
    pub(crate) claims: Vec<u32>,
    pub(crate) held: HeldBlocks,
    heads: Heads,
    limit: u64,
    pub(crate) tip: usize,
}

impl Model for ForkDb {
    ghost use Rattle.std.specs.Prelude.{◌≡◌, ◌≤◌, ◌+◌, length, reverse, vec_len, vec_capacity};
    ghost use Rattle.chain_model.specs.Ancestry.{IsHistory};
    ghost use Rattle.chain_model.specs.Finality.{final_tip as final_tip_in, ClaimsAgree};
    ghost use Rattle.block_tree.specs.Places.{slip_at};
    ghost use Rattle.fork_db.specs.Claims.{AreClaims};
    ghost use Rattle.fork_db.specs.Forks.{Forks, HoldsOwn};
    ghost use Rattle.fork_db.specs.Heads.{IsRanked};

    ghost Value = { Forks };

    ghost view = { λ t. record {
      history = t.tree.history;
      held = t.held.blocks;
      room = t.tree.room;
      limit = t.limit;
    } };

    ghost invariant = { λ t. AreClaims t.tree.history (reverse t.claims.items)
        × (slip_at t.tree.history t.tip ≡ final_tip_in t.tree.history)
        × ClaimsAgree t.tree.history
        × IsRanked t.tree.history t.heads.head t.heads.rivals
        × HoldsOwn t.tree.history t.held.blocks
        × (vec_len t.claims + t.tree.room ≤ vec_capacity t.claims)
        × (t.tree.room ≤ t.held.room)
        × (t.tree.room ≤ t.heads.room)
        × (length t.tree.history + t.tree.room ≤ t.limit)
        × IsHistory t.tree.history };
}

impl ForkDb {
    /// No block, and at most `limit` blocks.
    pub fn new(alloc: Global, limit: u64) -> Result<ForkDb, AllocError>
        ensures history { IfOk result (λ db. db.history ≡ []) }
        ensures held { IfOk result (λ db. db.held ≡ []) }
        ensures limit { IfOk result (λ db. db.limit ≡ limit) }
    {
        Ok(ForkDb {
            tree: BlockTree::new(alloc),
            claims: Vec::new(alloc),
            held: HeldBlocks::new(alloc),
            heads: Heads::new(alloc),
            limit,
            tip: 0,
        })
    }

    /// How many blocks there are. Their history is one, and its claims agree.
    pub fn len(&self) -> u64
        ensures len { result ≡ length self.now.history }
        ensures limit { result ≤ self.now.limit }
        ensures sound { IsHistory self.now.history }
        ensures agreed { ClaimsAgree self.now.history }
    {
        self.tree.len() as u64
    }

    /// The slip at a place.
    pub fn slip(&self, at: usize) -> &Slip
        requires { at < length self.now.history }
        ensures { slip_at self.now.history at ≡ Some result.now }
    {
        self.tree.slip(at)
    }

    /// The place of the block with this id.
    pub fn find(&self, id: &Id) -> Option<usize>
        ensures { result ≡ place_of self.now.history id.now }
    {
        self.tree.find(id)
    }

    /// The slip of the block with this id.
    pub fn find_slip(&self, id: &Id) -> Option<&Slip>
        ensures { option_copied result ≡ find_id self.now.history id.now }
    {
        self.tree.find_slip(id)
    }

    /// The head.
    pub fn head(&self) -> Option<usize>
        ensures head { slip_of self.now.history result ≡ head_in self.now.history }
        ensures range { IfSome result (λ at. at < length self.now.history) }
    {
        if self.tree.len() == 0 {
            return None;
        }
        Some(self.heads.head())
    }

    /// The last final block.
    pub fn final_tip(&self) -> Option<usize>
        ensures tip { slip_of self.now.history result ≡ final_tip_in self.now.history }
        ensures range { IfSome result (λ at. at < length self.now.history) }
    {
        if self.tree.len() == 0 {
            return None;
        }
        Some(self.tip)
    }

    /// Whether the first block is on the path of the second.
    pub fn on_path(&self, a: usize, b: usize) -> bool
        requires a_range { a < length self.now.history }
        requires b_range { b < length self.now.history }
        ensures { (x y : SlipOf) → slip_at self.now.history a ≡ Some x
            → slip_at self.now.history b ≡ Some y → result ≡ on_path_in self.now.history x y }
    {
        self.tree.on_path(a, b, &mut Uncounted)
    }

    /// The block at the index `depth` of the path of a block, where the path is that long.
    pub fn ancestor_at(&self, b: usize, depth: u64) -> Option<usize>
        requires { b < length self.now.history }
        ensures value { (y : SlipOf) → slip_at self.now.history b ≡ Some y
            → slip_of self.now.history result
            ≡ slice_get (reverse (ancestry self.now.history y.id)) depth }
        ensures range { IfSome result (λ at. at < length self.now.history) }
    {
        self.tree.up(b, depth, &mut Uncounted)
    }

    /// The last block that is on both paths.
    pub fn fork_point(&self, a: usize, b: usize) -> usize
        requires a_range { a < length self.now.history }
        requires b_range { b < length self.now.history }
        ensures value { (x y : SlipOf) → slip_at self.now.history a ≡ Some x
            → slip_at self.now.history b ≡ Some y → slip_at self.now.history result
            ≡ meeting (ancestry self.now.history x.id) (ancestry self.now.history y.id) }
        ensures range { result < length self.now.history }
    {
        self.tree.meet(a, b, &mut Uncounted)
    }

    /// The block at a place, where it is still held.
    pub fn held(&self, at: usize) -> Option<&Arc<Block>>
        requires { at < length self.now.history }
        ensures value { slice_get self.now.held at
            ≡ Some (option_map (λ b. b.now.value) result) }
        ensures own { IfSome result
            (λ b. slip_at self.now.history at ≡ Some (slip_of_block b.now.value)) }
    {
        self.held.get(at)
    }

    /// Gives up the block at a place. Its slip stays.
    pub fn release(&mut self, at: usize)
        requires { at < length self.old.history }
        ensures history { self.new.history ≡ self.old.history }
        ensures held { self.new.held ≡ set self.old.held at None }
        ensures room { self.new.room ≡ self.old.room }
        ensures limit { self.new.limit ≡ self.old.limit }
    {
        self.held.release(at);
    }

    /// For how many more blocks the limit has room.
    pub fn left(&self) -> u64
        ensures { length self.now.history + result ≡ self.now.limit }
    {
        self.limit - self.len()
    }

    /// Makes room for that many more blocks.
    pub fn reserve(&mut self, more: u64) -> Result<(), ForkFault>
        ensures history { self.new.history ≡ self.old.history }
        ensures held { self.new.held ≡ self.old.held }
        ensures limit { self.new.limit ≡ self.old.limit }
        ensures ok { OnOk result (more ≤ self.new.room) }
        ensures room { self.old.room ≤ self.new.room }
        ensures err { OnErr result (self.new.room ≡ self.old.room) }
        // `Full` comes exactly where more blocks would pass the limit.
        ensures full { (n : ℕ) → result ≡ Err (ForkFault.Full n)
            → (n ≡ length self.old.history) × (self.old.limit < n + more) }
        ensures within { length self.old.history ≤ self.old.limit }
        ensures ready { more ≤ self.old.room → IsOk result }
        ensures limited { self.old.limit < length self.old.history + more
            → result ≡ Err (ForkFault.Full (length self.old.history)) }
    {
        if more <= self.tree.room() {
            return Ok(());
        }
        if self.left() < more {
            return Err(ForkFault::Full { len: self.len() });
        }
        if more > BLOCKS_MAX {
            return Err(ForkFault::Mem);
        }
        self.claims.reserve(more as usize)?;
        self.held.reserve(more as u32)?;
        self.heads.reserve(more)?;
        self.tree.reserve(more)?;
        Ok(())
    }

    /// Appends a block that may come next, and gives its place. `slip` is the block's. Its payload is
    /// held where the block is given.
    pub fn append(&mut self, slip: Slip, block: Option<Arc<Block>>) -> Result<usize, ForkFault>
        requires slip { IfSome block (λ b. slip ≡ slip_of_block b.value) }
        requires fits { verdict_of self.old.history slip ≡ fits }
        ensures place { IfOk result (λ at. at ≡ length self.old.history) }
        ensures appended { OnOk result (IsAppended self.old self.new slip
            (option_map (λ b. b.value) block)) }
        ensures room { OnOk result (self.old.room ≤ self.new.room + 1) }
        ensures kept { OnErr result ((self.new.history ≡ self.old.history)
            × (self.new.held ≡ self.old.held) × (self.new.limit ≡ self.old.limit)
            × (self.new.room ≡ self.old.room)) }
        ensures succeeds { 0 < self.old.room → IsOk result }
        // `Full` comes exactly where the limit is reached.
        ensures full { (n : ℕ) → result ≡ Err (ForkFault.Full n)
            → (n ≡ length self.old.history) × (n ≡ self.old.limit) }
        ensures limited { self.old.limit ≡ length self.old.history
            → result ≡ Err (ForkFault.Full (length self.old.history)) }
    {
        self.reserve(1)?;
        let parent = self.tree.find(&slip.parent_id);
        let linked = self.link(parent, &slip);
        Ok(self.append_reserved(slip, block, linked))
    }

    /// The same for a block for which there is room, where it is linked. It takes no memory, and
    /// looks for neither its parent nor what it claims.
    pub fn append_reserved(
        &mut self,
        slip: Slip,
        block: Option<Arc<Block>>,
        linked: Linked,
    ) -> usize
        requires slip { IfSome block (λ b. slip ≡ slip_of_block b.value) }
        requires fits { verdict_of self.old.history slip ≡ fits }
        requires room { 0 < self.old.room }
        requires linked { IsLinkOf self.old.history slip linked }
        ensures place { result ≡ length self.old.history }
        ensures appended { IsAppended self.old self.new slip (option_map (λ b. b.value) block) }
        ensures room { self.new.room + 1 ≡ self.old.room }
    {
        let at = self.tree.len();
        let claim = claim_place(&self.tree, linked);
        self.tree.push(slip, linked.parent);
        self.claims.push_reserved(claim as u32);
        self.held.push(block);
        self.tip = later_tip(&self.tree, self.tip, claim);
        self.heads.add(&self.tree, self.tip);
        at
    }
}
