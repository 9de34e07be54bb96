//! Small rooms, with answers worked out by hand.

ghost use Rattle.std.specs.Prelude.{◌≡◌};
ghost use Rattle.chain_model.specs.Ancestry.{has_id};

use crate::blocks::whole_block;
use crate::ids::id_of;
use block_record::{Block, Id, Slip, slip_of};
use std::alloc::{AllocError, Global};
use std::process::Abort;
use std::sync::Arc;
use std::test::Fail;
use wait_room::{Holds, WaitRoom};

/// A block's tag, which is its lib number, its number and id, its parent's id, and its payload.
type Fields = (u64, u64, &'static str, &'static str, &'static [u8]);

/// A call of a room, with blocks by their ids.
#[derive(Clone, Copy, Debug)]
enum Call {
    Put(Fields),
    /// 1 where a payload of that length fits, else 0.
    Fits(u64),
    Blocks,
    Bytes,
    /// The tag of the block.
    Find(&'static str),
    Descendants(&'static str),
    /// How many blocks name the id as their parent's.
    Children(&'static str),
    /// 1 where a block names the id as its parent's, else 0.
    HasChild(&'static str),
    /// The tag of the block that is taken, where these blocks are held.
    Take(&'static [&'static str]),
    DropThrough(u64),
}

use Call::{
    Blocks, Bytes as HeldBytes, Children, Descendants, DropThrough, Find, Fits, HasChild, Put, Take,
};

/// The calls of a room for 4 blocks and 10 bytes.
const ROOM: &[(Call, Option<u64>)] = &[
    (Take(&["b2"]), None),
    (Put((1, 5, "x5", "w4", b"12")), None),
    (Put((2, 3, "x3", "b2", b"1")), None),
    (Put((3, 3, "y3", "b2", b"123")), None),
    (Blocks, Some(3)),
    (HeldBytes, Some(6)),
    (Fits(4), Some(1)),
    (Fits(5), Some(0)),
    (Put((4, 6, "z6", "x5", b"1234")), None),
    (Fits(0), Some(0)),
    (Find("x3"), Some(2)),
    (Find("b2"), None),
    (Descendants("w4"), Some(2)),
    (Descendants("b2"), Some(2)),
    (Descendants("z6"), Some(0)),
    (Children("b2"), Some(2)),
    (HasChild("x5"), Some(1)),
    (HasChild("z6"), Some(0)),
    (Take(&["a1"]), None),
    // The least number, and of two with one number the one that came first.
    (Take(&["w4", "b2"]), Some(2)),
    (Children("b2"), Some(1)),
    (Take(&["w4", "b2"]), Some(3)),
    (Children("b2"), Some(0)),
    (HeldBytes, Some(6)),
    (DropThrough(4), None),
    (Blocks, Some(2)),
    (DropThrough(5), None),
    (Blocks, Some(1)),
    (HeldBytes, Some(4)),
    (Find("x5"), None),
    (Descendants("x5"), Some(1)),
];

/// Two blocks that name each other as parents, and one beside them.
const CIRCLE: &[(Call, Option<u64>)] = &[
    (Put((1, 5, "x5", "y5", b"")), None),
    (Put((2, 5, "y5", "x5", b"")), None),
    (Put((3, 7, "c7", "d6", b"")), None),
    (Descendants("x5"), Some(2)),
    (Descendants("d6"), Some(1)),
    (Descendants("c7"), Some(0)),
    (Take(&["d6", "y5"]), Some(1)),
    (Descendants("x5"), Some(1)),
];

#[test]
fn a_room_answers_as_by_hand(rt: HostRuntime) -> Result<(), Fail> {
    let alloc = rt.alloc();
    let mut room = WaitRoom::new(alloc, 4, 10);
    for (call, wanted) in ROOM {
        assert_eq!(rt; answer(&rt, alloc, &mut room, *call)?, *wanted, "{call:?}");
    }
    Ok(())
}

#[test]
fn a_circle_of_parents_is_counted(rt: HostRuntime) -> Result<(), Fail> {
    let alloc = rt.alloc();
    let mut room = WaitRoom::new(alloc, 3, 0);
    for (call, wanted) in CIRCLE {
        assert_eq!(rt; answer(&rt, alloc, &mut room, *call)?, *wanted, "{call:?}");
    }
    Ok(())
}

/// What the call answers, as a number.
fn answer(
    rt: &impl Abort,
    alloc: Global,
    room: &mut WaitRoom,
    call: Call,
) -> Result<Option<u64>, AllocError> {
    match call {
        Put(fields) => put(rt, alloc, room, fields),
        Fits(length) => Ok(Some(u64::from(room.fits(length)))),
        Blocks => Ok(Some(room.blocks())),
        HeldBytes => Ok(Some(room.bytes())),
        Find(id) => find(rt, alloc, room, id),
        Descendants(id) => count(rt, alloc, room, id),
        Children(id) => Ok(Some(room.children(&id_of(rt, alloc, id)?))),
        HasChild(id) => Ok(Some(u64::from(room.has_child(&id_of(rt, alloc, id)?)))),
        Take(ids) => take(rt, alloc, room, ids),
        DropThrough(num) => {
            room.drop_through(num);
            Ok(None)
        }
    }
}

fn put(
    rt: &impl Abort,
    alloc: Global,
    room: &mut WaitRoom,
    fields: Fields,
) -> Result<Option<u64>, AllocError> {
    let block = block_of(rt, alloc, fields)?;
    let slip = slip_of(alloc, &block)?;
    let block = Arc::new(alloc, block)?;
    assert!(rt; room.fits(u64::from(slip.length)));
    match room.find(&slip.id) {
        Some(held) => Ok(Some(held.lib_num)),
        None => {
            room.put(slip, Some(block))?;
            Ok(None)
        }
    }
}

fn find(
    rt: &impl Abort,
    alloc: Global,
    room: &WaitRoom,
    text: &str,
) -> Result<Option<u64>, AllocError> {
    let id = id_of(rt, alloc, text)?;
    Ok(room.find(&id).map(|slip| slip.lib_num))
}

fn count(
    rt: &impl Abort,
    alloc: Global,
    room: &WaitRoom,
    text: &str,
) -> Result<Option<u64>, AllocError> {
    let id = id_of(rt, alloc, text)?;
    Ok(Some(room.descendants(&id)?))
}

fn take(
    rt: &impl Abort,
    alloc: Global,
    room: &mut WaitRoom,
    texts: &[&'static str],
) -> Result<Option<u64>, AllocError> {
    let mut slips = Vec::new(alloc);
    for text in texts {
        let block = block_of(rt, alloc, (0, 1, *text, "p0", b""))?;
        slips.push(slip_of(alloc, &block)?)?;
    }
    let taken = room.take_next(&Known { slips });
    Ok(taken.map(|(slip, _)| slip.lib_num))
}

/// Blocks that are held.
#[derive(Drop)]
struct Known {
    slips: Vec<Slip>,
}

impl Holds for Known {
    ghost history = { λ k. k.slips.items };

    fn holds(&self, id: &Id) -> bool {
        has_slip(self.slips.as_slice(), id)
    }
}

fn has_slip(slips: &[Slip], id: &Id) -> bool
    ensures { result ≡ has_id slips.now id.now }
{
    for slip in slips {
        if slip.id == *id {
            return true;
        }
    }
    false
}

fn block_of(
    rt: &impl Abort,
    alloc: Global,
    (tag, num, id, parent_id, payload): Fields,
) -> Result<Block, AllocError> {
    assert!(rt; 0 < num);
    let block = whole_block(alloc, (num, id, num - 1, parent_id, tag, payload))?;
    Ok(block.expect(rt, "a block"))
}
