//! What a file's text says as a container, and what a message in it says as a record.

ghost use Rattle.std.specs.Prelude.{◌≡◌, ◌≢◌, ◌≤◌, ◌||◌, ◌++◌, [], length, nat_lt, IfOk, OnOk};
ghost use Rattle.std.specs.Option.{is_some, option_map, unwrap_or};
ghost use Rattle.dbin_file.specs.Contents.{contents, told};
ghost use Rattle.dbin_file.specs.Reader.{state_after};
ghost use Rattle.one_block.specs.Containers.{HasContents, IsRead, fault_place as place_of_fault};

use block_record::{Block, Bytes, RecordFault, TypeName, decode, show_recordable};
use dbin_file::{DbinFault, DbinReader};
use std::alloc::{AllocError, Global};

/// What a text says as a container.
#[derive(Drop)]
pub struct FileContents {
    /// None where the header is cut or bad.
    pub block_type: Option<TypeName>,
    pub messages: Vec<Bytes>,
    pub fault: Option<DbinFault>,
}

/// What a text says as a container.
pub fn read_contents(alloc: Global, text: &[u8]) -> Result<FileContents, AllocError>
    ensures { IfOk result (λ file. HasContents text.now file) }
{
    let mut reader = DbinReader::new(alloc);
    let mut messages = Vec::new(alloc);
    feed_all(text, &mut reader, &mut messages)?;
    let block_type = type_of(&reader)?;
    let fault = reader.finish().err();
    Ok(FileContents {
        block_type,
        messages,
        fault,
    })
}

/// Feeds a whole text to a new reader, and adds its messages.
fn feed_all(
    text: &[u8],
    reader: &mut DbinReader,
    messages: &mut Vec<Bytes>,
) -> Result<(), AllocError>
    requires { reader.old ≡ state_after [] }
    ensures state { OnOk result (reader.new ≡ state_after text.now) }
    ensures messages { OnOk result
        (messages.new.items ≡ messages.old.items ++ (contents text.now).messages) }
{
    unless_memory(reader.feed(text, messages))?;
    Ok(())
}

/// Whether a container's answer is another than want of memory.
fn unless_memory(answer: Result<(), DbinFault>) -> Result<(), AllocError>
    ensures { OnOk result (answer ≢ Err DbinFault.Mem) }
{
    match answer {
        Err(DbinFault::Mem) => Err(AllocError),
        Err(DbinFault::NotDbin { .. })
        | Err(DbinFault::BadVersion { .. })
        | Err(DbinFault::MessageTooLong { .. })
        | Err(DbinFault::Truncated { .. })
        | Ok(()) => Ok(()),
    }
}

/// A copy of the type that a reader has read.
fn type_of(reader: &DbinReader) -> Result<Option<TypeName>, AllocError>
    ensures { IfOk result (λ found. found ≡ reader.now.block_type) }
{
    match reader.block_type() {
        Some(name) => {
            let name = copy_type(name)?;
            Ok(Some(name))
        }
        None => Ok(None),
    }
}

/// A copy of a type.
pub fn copy_type(name: &TypeName) -> Result<TypeName, AllocError>
    ensures { IfOk result (λ copied. copied ≡ name.now) }
{
    let copied = name.clone()?;
    Ok(copied)
}

/// Whether more than a first message is there, or a fault.
pub fn goes_on(file: &FileContents) -> bool
    ensures { result ≡ (nat_lt 1 (length file.now.messages.items) || is_some file.now.fault) }
{
    file.messages.len() > 1 || file.fault.is_some()
}

/// Where a file of this length ends too early: the place of its container's fault, or else its end.
pub fn end_place(fault: Option<DbinFault>, len: usize) -> u64
    ensures { result ≡ unwrap_or (option_map place_of_fault fault) (told len) }
{
    match fault {
        Some(fault) => fault_place(fault),
        None => len as u64,
    }
}

/// The place of a container's fault.
pub fn fault_place(fault: DbinFault) -> u64
    ensures { result ≡ place_of_fault fault }
{
    match fault {
        DbinFault::NotDbin { at }
        | DbinFault::MessageTooLong { at, .. }
        | DbinFault::Truncated { at } => at,
        DbinFault::BadVersion { .. } => 4,
        DbinFault::Mem => 0,
    }
}

/// The block of a record, which no other block has, or the first bad field of what is none.
pub fn read_record(alloc: Global, bytes: &[u8]) -> Result<Block, RecordFault>
    ensures { IsRead bytes.now result }
{
    let block = decode(alloc, bytes)?;
    show_recordable(&block);
    Ok(block)
}
