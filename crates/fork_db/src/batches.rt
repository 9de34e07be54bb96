//! Batches: the steps that lead a client to a target, by their counts.

ghost use Rattle.std.specs.Prelude.{◌≡◌, ◌+◌, ◌*◌, ◌<◌, ◌≤◌, ◌^◌, ℕ, length, max, min, IfOk};
ghost use Rattle.chain_model.specs.Ancestry.{IsHistory};
ghost use Rattle.chain_model.specs.Finality.{ancestry_of, final_tip};
ghost use Rattle.chain_model.specs.Places.{IsAhead, PlaceFits};
ghost use Rattle.chain_model.specs.Steps.{ancestry_at, cut, kept, target, head as head_of};
ghost use Rattle.chain_laws.specs.Standing.{first_of};
ghost use Rattle.block_tree.specs.Places.{slip_of};
ghost use Rattle.fork_db.specs.Batches.{IsBatch, IsGiven, step_total};

use crate::db::ForkDb;
use block_record::BlockRef;
use block_tree::{BLOCKS_MAX, BlockTree};
use chain_model::{Mode, Place};
use link_rows::LinkCount;
use std::alloc::AllocError;

/// The steps from a place to a target, by their counts.
#[derive(Drop)]
pub struct Batch {
    /// How many blocks the history had.
    pub seen: u64,
    /// Where the client stands.
    pub place: Place,
    /// The place of the target's last block in the history. None for a target without blocks.
    pub target: Option<usize>,
    /// The place of the end in the history. None for a client without blocks.
    pub end: Option<usize>,
    /// How many blocks the path of the end has.
    pub held: u64,
    /// How many blocks the client knows to be final.
    pub known: u64,
    /// How many blocks are taken back.
    pub undos: u64,
    /// How many blocks that the client has are final.
    pub finals: u64,
    /// How many blocks follow that are final.
    pub newfinals: u64,
    /// How many blocks follow that are not.
    pub news: u64,
}

/// How many steps there are of each kind.
#[derive(Clone, Copy)]
pub struct Counts {
    undos: u64,
    finals: u64,
    newfinals: u64,
    news: u64,
}

/// How many blocks some paths have, and where the client's ends.
#[derive(Clone, Copy)]
pub struct Lengths {
    end: Option<usize>,
    held: u64,
    wanted: u64,
    common: u64,
    known: u64,
    finals: u64,
}

impl ForkDb {
    /// The steps from a place that fits to the target, by their counts. It reads at most 2 + 4 d
    /// links, d the number of binary digits of the history's length, and copies the place.
    pub fn batch<C: LinkCount>(
        &self,
        place: &Place,
        mode: Mode,
        stop: Option<u64>,
        links: &mut C,
    ) -> Result<Batch, AllocError>
        requires fits { PlaceFits self.now.history place.now.end place.now.lib }
        requires ahead { IsAhead stop place.now.end }
        ensures batch { IfOk result (λ b. IsBatch self.now.history mode stop b) }
        ensures given { IfOk result
            (λ b. IsGiven self.now.history self.now.history mode stop b) }
        ensures place { IfOk result (λ b. b.place ≡ place.now) }
        ensures cost { (d : ℕ) → length self.now.history < 2 ^ d
            → C.count links.new ≤ C.count links.old + 2 + 4 * d }
    {
        let place = copy_place(place)?;
        Ok(self.batch_from(place, mode, stop, links))
    }

    /// The same from a place of the caller's own, which the batch keeps. It takes no memory.
    pub fn batch_from<C: LinkCount>(
        &self,
        place: Place,
        mode: Mode,
        stop: Option<u64>,
        links: &mut C,
    ) -> Batch
        requires fits { PlaceFits self.now.history place.end place.lib }
        requires ahead { IsAhead stop place.end }
        ensures batch { IsBatch self.now.history mode stop result }
        ensures given { IsGiven self.now.history self.now.history mode stop result }
        ensures place { result.place ≡ place }
        ensures cost { (d : ℕ) → length self.now.history < 2 ^ d
            → C.count links.new ≤ C.count links.old + 2 + 4 * d }
    {
        let tip = self.final_tip();
        let head = self.head();
        let seen = self.tree.len() as u64;
        let target = target_of(&self.tree, tip, head, mode, stop, links);
        let paths = path_lengths(&self.tree, tip, &place, target, links);
        let counts = counts_of(paths);
        Batch {
            seen,
            place,
            target,
            end: paths.end,
            held: paths.held,
            known: paths.known,
            undos: counts.undos,
            finals: counts.finals,
            newfinals: counts.newfinals,
            news: counts.news,
        }
    }
}

/// How many blocks the path of a block has. None has no path, and neither has a place that is not
/// in the history.
fn path_len(tree: &BlockTree, at: Option<usize>) -> u64
    ensures len { result ≡ length (ancestry_of tree.now.history (slip_of tree.now.history at)) }
    ensures short { result ≤ length tree.now.history }
    ensures small { length tree.now.history ≤ BLOCKS_MAX }
    ensures sound { IsHistory tree.now.history }
{
    let len = tree.len();
    match at {
        Some(at) if at < len => tree.depth(at) + 1,
        _ => 0,
    }
}

/// The place of the block at a reference.
fn find_ref(tree: &BlockTree, block: &Option<BlockRef>) -> Option<usize>
    ensures { ancestry_of tree.now.history (slip_of tree.now.history result)
        ≡ ancestry_at tree.now.history block.now }
{
    match block {
        Some(block) => tree.find(&block.id),
        None => None,
    }
}

/// The last block of a path with a number of at most the stop, where there is a stop.
fn cut_at<C: LinkCount>(
    tree: &BlockTree,
    last: Option<usize>,
    stop: Option<u64>,
    links: &mut C,
) -> Option<usize>
    ensures value { slip_of tree.now.history result
        ≡ first_of (cut stop (ancestry_of tree.now.history (slip_of tree.now.history last))) }
    ensures cost { (d : ℕ) → length tree.now.history < 2 ^ d
        → C.count links.new ≤ C.count links.old + d + 1 }
{
    let len = tree.len();
    match (last, stop) {
        (Some(at), Some(stop)) if at < len => tree.last_up_to(at, stop, links),
        _ => last,
    }
}

/// The last block of the target.
fn target_of<C: LinkCount>(
    tree: &BlockTree,
    tip: Option<usize>,
    head: Option<usize>,
    mode: Mode,
    stop: Option<u64>,
    links: &mut C,
) -> Option<usize>
    requires tip { slip_of tree.now.history tip ≡ final_tip tree.now.history }
    requires head { slip_of tree.now.history head ≡ head_of tree.now.history }
    ensures value { slip_of tree.now.history result
        ≡ first_of (target tree.now.history mode stop) }
    ensures cost { (d : ℕ) → length tree.now.history < 2 ^ d
        → C.count links.new ≤ C.count links.old + d + 1 }
{
    match mode {
        Mode::Live => cut_at(tree, head, stop, links),
        Mode::Final => cut_at(tree, tip, stop, links),
    }
}

/// How many blocks are on two paths.
fn common_len<C: LinkCount>(
    tree: &BlockTree,
    a: Option<usize>,
    b: Option<usize>,
    links: &mut C,
) -> u64
    ensures len { result ≡ length (kept
        (ancestry_of tree.now.history (slip_of tree.now.history a))
        (ancestry_of tree.now.history (slip_of tree.now.history b))) }
    ensures cost { (d : ℕ) → length tree.now.history < 2 ^ d
        → C.count links.new ≤ C.count links.old + 1 + 3 * d }
{
    match (a, b) {
        (Some(a), Some(b)) if a < tree.len() && b < tree.len() => {
            path_len(tree, Some(tree.meet(a, b, links)))
        }
        _ => 0,
    }
}

/// The counts of steps from one path to another: of the blocks on both, those after the known ones
/// that are final, and of the blocks after them, those that are final and the others.
fn counts_of(paths: Lengths) -> Counts
    requires held { paths.common ≤ paths.held }
    requires wanted { paths.common ≤ paths.wanted }
    requires known { paths.known ≤ min paths.common paths.finals }
    requires finals { paths.finals ≤ paths.wanted }
    ensures undos { result.undos + paths.common ≡ paths.held }
    ensures finals { result.finals + paths.known ≡ min paths.common paths.finals }
    ensures newfinals { result.newfinals + paths.common ≡ max paths.common paths.finals }
    ensures news { result.news + max paths.common paths.finals ≡ paths.wanted }
{
    Counts {
        undos: paths.held - paths.common,
        finals: paths.common.min(paths.finals) - paths.known,
        newfinals: paths.common.max(paths.finals) - paths.common,
        news: paths.wanted - paths.common.max(paths.finals),
    }
}

/// The lengths of the paths between which a client moves.
fn path_lengths<C: LinkCount>(
    tree: &BlockTree,
    tip: Option<usize>,
    place: &Place,
    target: Option<usize>,
    links: &mut C,
) -> Lengths
    ensures end { slip_of tree.now.history result.end
        ≡ first_of (ancestry_at tree.now.history place.now.end) }
    ensures held { result.held ≡ length (ancestry_at tree.now.history place.now.end) }
    ensures wanted { result.wanted
        ≡ length (ancestry_of tree.now.history (slip_of tree.now.history target)) }
    ensures common { result.common ≡ length (kept (ancestry_at tree.now.history place.now.end)
        (ancestry_of tree.now.history (slip_of tree.now.history target))) }
    ensures known { result.known ≡ length (ancestry_at tree.now.history place.now.lib) }
    ensures finals { result.finals ≡ min result.wanted
        (length (ancestry_of tree.now.history (slip_of tree.now.history tip))) }
    ensures cost { (d : ℕ) → length tree.now.history < 2 ^ d
        → C.count links.new ≤ C.count links.old + 1 + 3 * d }
{
    let end = find_ref(tree, &place.end);
    let lib = find_ref(tree, &place.lib);
    let wanted = path_len(tree, target);
    let final_len = path_len(tree, tip);
    Lengths {
        end,
        held: path_len(tree, end),
        wanted,
        common: common_len(tree, end, target, links),
        known: path_len(tree, lib),
        finals: wanted.min(final_len),
    }
}

/// A copy of a place.
pub fn copy_place(place: &Place) -> Result<Place, AllocError>
    ensures { IfOk result (λ p. p ≡ place.now) }
{
    let place = place.clone()?;
    Ok(place)
}

/// How many steps a batch has.
pub fn step_count(batch: &Batch) -> u64
    requires small { step_total batch.now < 2 ^ 64 }
    ensures { result ≡ step_total batch.now }
{
    batch.undos + batch.finals + batch.newfinals + batch.news
}
