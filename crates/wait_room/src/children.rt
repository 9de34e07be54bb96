//! How many waiting blocks name each id as their parent's.

ghost use Rattle.std.specs.Prelude.{◌≡◌, ◌<◌, ◌+◌, ◌^◌, ℕ, List, filter, nat_lt, OnOk, OnErr, if◌then◌else◌};
ghost use Rattle.block_record.specs.Ids.{same_id};
ghost use Rattle.wait_room.specs.Children.{children_at, IsSame};
ghost use Rattle.wait_room.specs.Rooms.{children_in, slips_of};

use crate::waiters::Waiter;
use block_record::Id;
use std::alloc::AllocError;
use std::collections::HashMap;

/// The children of an id that wait.
#[derive(Drop)]
pub struct Children {
    /// How many there are.
    pub count: u64,
    /// The id of the one that came last: a hint, for which no clause speaks. It may be gone while
    /// others wait.
    pub latest: Id,
}

/// How many children of the id wait.
pub fn count_children(children: &HashMap<Id, Children>, parent: &Id) -> u64
    ensures { result ≡ children_at children.now parent.now }
{
    match children.get(parent) {
        Some(found) => found.count,
        None => 0,
    }
}

/// The id of the latest child of the id. It is a hint and has no clause: any id would do, since who
/// takes it looks at the block before it is used. It may be gone while others wait.
pub fn latest_child<'a>(children: &'a HashMap<Id, Children>, parent: &Id) -> Option<&'a Id> {
    match children.get(parent) {
        Some(found) => Some(&found.latest),
        None => None,
    }
}

/// Counts one more child. At an error nothing has changed.
pub fn add_child(
    children: &mut HashMap<Id, Children>,
    parent: &Id,
    child: &Id,
) -> Result<(), AllocError>
    requires { children_at children.old parent.now + 1 < 2 ^ 64 }
    ensures ok { OnOk result ((id : List ℕ) → children_at children.new id
        ≡ children_at children.old id + (if same_id parent.now id then 1 else 0)) }
    ensures err { OnErr result (IsSame children.old children.new) }
{
    let count = count_children(children, parent) + 1;
    let latest = child.clone()?;
    let parent = parent.clone()?;
    let _ = children.insert(parent, Children { count, latest })?;
    Ok(())
}

/// Counts one child less.
pub fn remove_child(children: &mut HashMap<Id, Children>, parent: &Id)
    requires { 0 < children_at children.old parent.now }
    ensures { (id : List ℕ) → children_at children.old id
        ≡ children_at children.new id + (if same_id parent.now id then 1 else 0) }
{
    if count_children(children, parent) == 1 {
        let _ = children.remove(parent);
        return;
    }
    if let Some(found) = children.get_mut(parent) {
        found.count -= 1;
    }
}

/// Counts the blocks with a number of at most `num` off.
pub fn drop_children(children: &mut HashMap<Id, Children>, waiters: &[Waiter], num: u64)
    requires { (id : List ℕ) → children_at children.old id
        ≡ children_in (slips_of waiters.now) id }
    ensures { (id : List ℕ) → children_at children.new id
        ≡ children_in (filter (λ s. nat_lt num s.num) (slips_of waiters.now)) id }
{
    for waiter in waiters {
        if waiter.slip.num <= num {
            remove_child(children, &waiter.slip.parent_id);
        }
    }
}
