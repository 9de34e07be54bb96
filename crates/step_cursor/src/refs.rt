//! Cursors and their blocks with ids that aren't copied.

ghost use Rattle.std.specs.Prelude.{◌≡◌, IfOk};
ghost use Rattle.std.specs.Option.{option_copied, option_map};
ghost use Rattle.step_cursor.specs.CursorText.{IsPrintable, IsRef, IsRefIfAny, IsTailIfAny};
ghost use Rattle.step_cursor.specs.Reading.{ref_seen, cursor_seen};

use crate::cursor::{Cursor, Tail};
use block_record::{BlockRef, Id};
use chain_model::{Place, Step};
use std::alloc::{AllocError, Global};

/// A block by number and id, which isn't copied.
#[derive(Clone, Copy)]
pub struct RefView<'a> {
    pub num: u64,
    pub id: &'a [u8],
}

/// A cursor whose ids aren't copied. The end and the lib are those of the place after the step.
#[derive(Clone, Copy)]
pub struct CursorView<'a> {
    pub step: Step,
    pub block: RefView<'a>,
    pub end: Option<RefView<'a>>,
    pub lib: Option<RefView<'a>>,
    pub tail: Option<Tail>,
}

impl<'a> RefView<'a> {
    /// What a reference has.
    pub fn of(block: &'a BlockRef) -> RefView<'a>
        ensures value { ref_seen result ≡ block.now }
        ensures whole { IsRef block.now }
    {
        RefView::with(block.num, &block.id)
    }

    /// The block with this number and this id.
    pub fn with(num: u64, id: &'a Id) -> RefView<'a>
        ensures value { ref_seen result ≡ record { num = num; id = id.now } }
        ensures whole { IsRef (ref_seen result) }
    {
        RefView {
            num,
            id: id.as_bytes(),
        }
    }

    /// The same where there may be none.
    pub fn of_any(block: Option<&'a BlockRef>) -> Option<RefView<'a>>
        ensures value { option_map ref_seen result ≡ option_copied block.entry }
        ensures whole { IsRefIfAny (option_copied block.entry) }
    {
        match block {
            Some(block) => Some(RefView::of(block)),
            None => None,
        }
    }

    /// The reference, with a copy of the id.
    pub(crate) fn to_ref(self, alloc: Global) -> Result<BlockRef, AllocError>
        requires { IsRef (ref_seen self) }
        ensures { IfOk result (λ block. block ≡ ref_seen self.entry) }
    {
        let Some(id) = Id::new(alloc, self.id)? else {
            unreachable!();
        };
        Ok(BlockRef { num: self.num, id })
    }
}

/// The reference that may be missing, with a copy of the id.
fn to_any(alloc: Global, block: Option<RefView<'_>>) -> Result<Option<BlockRef>, AllocError>
    requires { IsRefIfAny (option_map ref_seen block) }
    ensures { IfOk result (λ found. found ≡ option_map ref_seen block.entry) }
{
    match block {
        Some(block) => {
            let copied = block.to_ref(alloc)?;
            Ok(Some(copied))
        }
        None => Ok(None),
    }
}

/// A tail has numbers of 64 bits.
fn has_numbers(tail: Option<Tail>)
    ensures { IsTailIfAny tail }
{
    if let Some(Tail { run, seen }) = tail {
        let _numbers = (run, seen);
    }
}

impl<'a> CursorView<'a> {
    /// What a cursor has.
    pub fn of(cursor: &'a Cursor) -> CursorView<'a>
        ensures value { cursor_seen result ≡ cursor.now }
        ensures printable { IsPrintable cursor.now }
    {
        has_numbers(cursor.tail);
        CursorView {
            step: cursor.step,
            block: RefView::of(&cursor.block),
            end: RefView::of_any(cursor.place.end.as_ref()),
            lib: RefView::of_any(cursor.place.lib.as_ref()),
            tail: cursor.tail,
        }
    }

    /// The cursor, with copies of the ids.
    pub(crate) fn to_cursor(self, alloc: Global) -> Result<Cursor, AllocError>
        requires { IsPrintable (cursor_seen self) }
        ensures { IfOk result (λ cursor. cursor ≡ cursor_seen self.entry) }
    {
        let block = self.block.to_ref(alloc)?;
        let end = to_any(alloc, self.end)?;
        let lib = to_any(alloc, self.lib)?;
        Ok(Cursor {
            step: self.step,
            block,
            place: Place { end, lib },
            tail: self.tail,
        })
    }
}
