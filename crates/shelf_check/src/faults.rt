//! Why a shelf, or one of its files, was refused.

ghost use Rattle.std.specs.Prelude.{◌≡◌, ◌⊎◌};
ghost use Rattle.shelf_check.specs.Refusals.{IsNamedAs, IsReadAs};

use block_record::TypeName;
use one_block::{FileFault, StoreFault};
use outer_world::{FileName, ShelfFail};
use std::alloc::{AllocError, Global};

/// Why a call that reads the whole shelf was refused.
#[derive(PartialEq, Eq, Debug, Drop)]
pub enum LoadFault {
    /// The shelf, or a file on it.
    Store(StoreFault),
    /// Two files have different types: that of the files before, and that of the file then read.
    KindClash { held: TypeName, offered: TypeName },
    /// The history has no room for what a block brings: it has `len` blocks, and `need` more would
    /// come.
    HistoryFull { len: u64, need: u64 },
}

impl From<AllocError> for LoadFault {
    ghost use Rattle.std.specs.Prelude.{◌≡◌};
    ghost use Rattle.one_block.specs.declared.faults.StoreFault.TheVariants.{Mem};
    ghost use Rattle.shelf_check.specs.declared.faults.LoadFault.TheVariants.{Store};

    ghost from_gives = { λ _ fault. fault ≡ Store Mem };

    fn from(_error: AllocError) -> LoadFault {
        LoadFault::Store(StoreFault::Mem)
    }
}

impl From<ShelfFail> for LoadFault {
    ghost use Rattle.std.specs.Prelude.{◌≡◌};
    ghost use Rattle.one_block.specs.StoreFaults.{fault_of};
    ghost use Rattle.shelf_check.specs.declared.faults.LoadFault.TheVariants.{Store};

    ghost from_gives = { λ fail fault. fault ≡ Store (fault_of fail) };

    fn from(fail: ShelfFail) -> LoadFault {
        match fail {
            ShelfFail::Failed => LoadFault::Store(StoreFault::ShelfFault),
            ShelfFail::Mem => LoadFault::Store(StoreFault::Mem),
        }
    }
}

impl From<StoreFault> for LoadFault {
    ghost use Rattle.std.specs.Prelude.{◌≡◌};
    ghost use Rattle.shelf_check.specs.declared.faults.LoadFault.TheVariants.{Store};

    ghost from_gives = { λ cause fault. fault ≡ Store cause };

    fn from(fault: StoreFault) -> LoadFault {
        LoadFault::Store(fault)
    }
}

/// Why a file was not read to its end.
#[derive(PartialEq, Eq, Debug, Drop)]
pub enum ReadFault {
    /// A call of the shelf was refused, or there was no memory.
    OnShelf(ShelfFail),
    /// The file was refused.
    InFile(FileFault),
}

impl From<AllocError> for ReadFault {
    ghost use Rattle.std.specs.Prelude.{◌≡◌};
    ghost use Rattle.outer_world.specs.declared.shelves.ShelfFail.TheVariants.{Mem};
    ghost use Rattle.shelf_check.specs.declared.faults.ReadFault.TheVariants.{OnShelf};

    ghost from_gives = { λ _ fault. fault ≡ OnShelf Mem };

    fn from(_error: AllocError) -> ReadFault {
        ReadFault::OnShelf(ShelfFail::Mem)
    }
}

impl From<ShelfFail> for ReadFault {
    ghost use Rattle.std.specs.Prelude.{◌≡◌};
    ghost use Rattle.shelf_check.specs.declared.faults.ReadFault.TheVariants.{OnShelf};

    ghost from_gives = { λ fail fault. fault ≡ OnShelf fail };

    fn from(fail: ShelfFail) -> ReadFault {
        ReadFault::OnShelf(fail)
    }
}

impl From<FileFault> for ReadFault {
    ghost use Rattle.std.specs.Prelude.{◌≡◌};
    ghost use Rattle.shelf_check.specs.declared.faults.ReadFault.TheVariants.{InFile};

    ghost from_gives = { λ refused fault. fault ≡ InFile refused };

    fn from(fault: FileFault) -> ReadFault {
        ReadFault::InFile(fault)
    }
}

/// The refusal of a shelf whose file of this name was refused so.
pub fn with_file(alloc: Global, name: &FileName, fault: ReadFault) -> LoadFault
    ensures { IsReadAs name.now fault result }
{
    match fault {
        ReadFault::OnShelf(fail) => LoadFault::from(fail),
        ReadFault::InFile(fault) => with_name(alloc, name, fault),
    }
}

/// The refusal of a shelf whose file of this name was refused.
pub fn with_name(alloc: Global, name: &FileName, fault: FileFault) -> LoadFault
    ensures { IsNamedAs name.now fault result }
{
    match fault {
        FileFault::Bad { at } => bad_file(alloc, name, at),
        FileFault::OtherType { held, offered } => LoadFault::KindClash { held, offered },
        FileFault::Mem => LoadFault::Store(StoreFault::Mem),
    }
}

/// The file of this name is bad at this place.
pub fn bad_file(alloc: Global, name: &FileName, at: u64) -> LoadFault
    ensures { IsNamedAs name.now (FileFault.Bad at) result }
{
    match FileName::new(alloc, name.as_bytes()) {
        Ok(name) => LoadFault::Store(StoreFault::ShelfBad { name, at }),
        Err(AllocError) => LoadFault::Store(StoreFault::Mem),
    }
}
