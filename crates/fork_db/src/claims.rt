//! What a block claims to be final, before it is appended.

ghost use Rattle.std.specs.Prelude.{◌≡◌, ◌<◌, ◌≤◌, ◌∷◌, length, Some, None, Option, IfSome, IfOk, false, max};
ghost use Rattle.block_record.specs.declared.blocks.Slip.{Slip as SlipOf};
ghost use Rattle.block_record.specs.Slips.{slip as slip_of_block};
ghost use Rattle.block_record.specs.SlipRefs.{slip_seen};
ghost use Rattle.chain_model.specs.Ancestry.{has_id, IsHistory};
ghost use Rattle.chain_model.specs.Finality.{claim as claim_in, final_tip as final_tip_in, root_num, greater};
ghost use Rattle.block_tree.specs.Places.{place_of, slip_at};
ghost use Rattle.fork_db.specs.Claims.{IsLinkOf, claim_at};
ghost use Rattle.fork_db.specs.Verdicts.{agrees_next, fits, parent_verdict, verdict_by, verdict_of};

use crate::db::{ForkDb, Verdict};
use block_record::{Block, Slip, SlipRef};
use block_tree::BlockTree;
use link_rows::Uncounted;

/// Where a next block is linked: at its parent, none for the first block, and at the block that it
/// claims to be final, none where it claims itself.
#[derive(Clone, Copy, PartialEq, Eq, Debug)]
pub struct Linked {
    pub parent: Option<usize>,
    pub claim: Option<usize>,
}

/// Why a block may not come next whose id is new and whose parent is there.
#[derive(Clone, Copy, PartialEq, Eq, Debug)]
pub enum ChildFault {
    /// Its parent has another number than it names, or one that is not below its own.
    ParentNumber,
    /// What it claims to be final and the final tip are not on one path.
    Disagrees,
}

impl ForkDb {
    /// What the block at a place claims to be final.
    pub fn claim(&self, at: usize) -> usize
        requires { at < length self.now.history }
        ensures value { (s : SlipOf) → slip_at self.now.history at ≡ Some s
            → slip_at self.now.history result ≡ claim_in self.now.history s }
        ensures range { result < length self.now.history }
    {
        self.claims[at] as usize
    }

    /// Whether a block may come next, and if not, why.
    pub fn can_append(&self, block: &Block) -> Verdict
        ensures { result ≡ verdict_of self.now.history (slip_of_block block.now) }
    {
        if self.tree.len() == 0 {
            return Verdict::Fits;
        }
        if self.tree.find(&block.id).is_some() {
            return Verdict::IdHeld;
        }
        match self.tree.find(&block.parent_id) {
            Some(parent) => {
                let slip = SlipRef::of_block(block);
                verdict_from(judge_child(&self.tree, self.tip, parent, slip))
            }
            None => Verdict::NoParent,
        }
    }

    /// The same for a block by its slip, whose id is new and whose parent stands at a place: where
    /// it is linked, if it may come next.
    pub fn can_append_on(&self, parent: usize, slip: SlipRef) -> Result<Linked, ChildFault>
        requires fresh { has_id self.now.history (slip_seen slip).id ≡ false }
        requires parent { place_of self.now.history (slip_seen slip).parent_id ≡ Some parent }
        ensures verdict { verdict_by result
            ≡ verdict_of self.now.history (slip_seen slip.entry) }
        ensures linked { IfOk result (IsLinkOf self.now.history (slip_seen slip.entry)) }
    {
        let _ = self.tree.len();
        judge_child(&self.tree, self.tip, parent, slip)
    }

    /// Where a block is linked that may come next and whose parent's place is known, none for the
    /// first block. `can_append_on` gives the same.
    pub fn link(&self, parent: Option<usize>, slip: &Slip) -> Linked
        requires fits { verdict_of self.now.history slip.now ≡ fits }
        requires parent { place_of self.now.history slip.now.parent_id ≡ parent }
        ensures { IsLinkOf self.now.history slip.now result }
    {
        let _ = self.tree.len();
        let claim = older_claim(&self.tree, parent, slip);
        Linked { parent, claim }
    }
}

/// Whether a block may come next whose id is new and whose parent stands at a place.
fn judge_child(
    tree: &BlockTree,
    tip: usize,
    parent: usize,
    slip: SlipRef,
) -> Result<Linked, ChildFault>
    requires sound { IsHistory tree.now.history }
    requires tip { tip < length tree.now.history }
    requires tip_is { slip_at tree.now.history tip ≡ final_tip_in tree.now.history }
    requires fresh { has_id tree.now.history (slip_seen slip).id ≡ false }
    requires parent { place_of tree.now.history (slip_seen slip).parent_id ≡ Some parent }
    ensures verdict { verdict_by result ≡ parent_verdict tree.now.history
        (slip_seen slip.entry) (slip_at tree.now.history parent) }
    ensures linked { IfOk result (IsLinkOf tree.now.history (slip_seen slip.entry)) }
{
    let held = tree.slip(parent);
    if held.num != slip.parent_num || held.num >= slip.num {
        return Err(ChildFault::ParentNumber);
    }
    let claim = claim_below(tree, parent, slip.num, slip.lib_num);
    if agrees_with_tip(tree, tip, parent, claim) {
        Ok(Linked {
            parent: Some(parent),
            claim,
        })
    } else {
        Err(ChildFault::Disagrees)
    }
}

/// The verdict on a block whose id is new and whose parent is there.
fn verdict_from(judged: Result<Linked, ChildFault>) -> Verdict
    ensures { result ≡ verdict_by judged }
{
    match judged {
        Ok(_) => Verdict::Fits,
        Err(ChildFault::ParentNumber) => Verdict::ParentNumber,
        Err(ChildFault::Disagrees) => Verdict::Disagrees,
    }
}

/// The place of what the next block claims, which may be its own.
pub fn claim_place(tree: &BlockTree, linked: Linked) -> usize
    ensures value { (slip : SlipOf) → IsLinkOf tree.now.history slip linked
        → slip_at (slip ∷ tree.now.history) result ≡ claim_in (slip ∷ tree.now.history) slip }
    ensures range { (slip : SlipOf) → IsLinkOf tree.now.history slip linked
        → result ≤ length tree.now.history }
{
    linked.claim.unwrap_or(tree.len())
}

/// What the next block claims: a block of the history, or none where it claims itself.
fn older_claim(tree: &BlockTree, parent: Option<usize>, slip: &Slip) -> Option<usize>
    requires sound { IsHistory (slip.now ∷ tree.now.history) }
    requires parent { place_of tree.now.history slip.now.parent_id ≡ parent }
    ensures value { claim_in (slip.now ∷ tree.now.history) slip.now
        ≡ claim_at (slip.now ∷ tree.now.history) result }
    ensures range { IfSome result (λ c. c < length tree.now.history) }
{
    match parent {
        Some(parent) => claim_below(tree, parent, slip.num, slip.lib_num),
        None => None,
    }
}

/// Up to which number a block with this lib number claims.
fn claim_limit(tree: &BlockTree, lib_num: u64) -> u64
    requires { 0 < length tree.now.history }
    ensures { result ≡ max lib_num (root_num tree.now.history) }
{
    lib_num.max(tree.slip(0).num)
}

/// What a next block with this number and this lib number claims whose parent is at a place: a
/// block of the parent's path, or none where it claims itself.
pub fn claim_below(tree: &BlockTree, parent: usize, num: u64, lib_num: u64) -> Option<usize>
    requires { parent < length tree.now.history }
    ensures value { (s p : SlipOf) → IsHistory (s ∷ tree.now.history)
        → slip_at tree.now.history parent ≡ Some p → s.parent_id ≡ p.id → s.num ≡ num
        → s.lib_num ≡ lib_num
        → claim_in (s ∷ tree.now.history) s ≡ claim_at (s ∷ tree.now.history) result }
    ensures range { IfSome result (λ c. c < length tree.now.history) }
{
    let limit = claim_limit(tree, lib_num);
    if num <= limit {
        return None;
    }
    tree.last_up_to(parent, limit, &mut Uncounted)
}

/// Whether what a next block claims agrees with the final tip.
pub fn agrees_with_tip(tree: &BlockTree, tip: usize, parent: usize, claim: Option<usize>) -> bool
    requires tip { tip < length tree.now.history }
    requires parent { parent < length tree.now.history }
    requires claim { IfSome claim (λ c. c < length tree.now.history) }
    ensures { (s p : SlipOf) → IsHistory (s ∷ tree.now.history)
        → slip_at tree.now.history parent ≡ Some p → s.parent_id ≡ p.id
        → slip_at tree.now.history tip ≡ final_tip_in tree.now.history
        → claim_in (s ∷ tree.now.history) s ≡ claim_at (s ∷ tree.now.history) claim
        → result ≡ agrees_next tree.now.history s }
{
    match claim {
        Some(claim) => {
            tree.on_path(claim, tip, &mut Uncounted) || tree.on_path(tip, claim, &mut Uncounted)
        }
        None => tree.on_path(tip, parent, &mut Uncounted),
    }
}

/// The claim of the newest block where it is the first or has a greater number than the tip, else
/// the tip.
pub fn later_tip(tree: &BlockTree, tip: usize, claim: usize) -> usize
    requires tip { 1 < length tree.now.history → tip < length tree.now.history }
    requires claim { claim < length tree.now.history }
    ensures { (old : Option SlipOf) (c : SlipOf) → (length tree.now.history ≡ 1 → old ≡ None)
        → (1 < length tree.now.history → old ≡ slip_at tree.now.history tip)
        → slip_at tree.now.history claim ≡ Some c
        → slip_at tree.now.history result ≡ greater old c }
{
    if tree.len() == 1 || tree.slip(tip).num < tree.slip(claim).num {
        claim
    } else {
        tip
    }
}
