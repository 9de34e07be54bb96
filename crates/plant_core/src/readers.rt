//! The readers of a plant, by their names.

ghost use Rattle.std.specs.Prelude.{◌≡◌, ◌<◌, IfOk, IfSome, OnErr, OnOk, length};
ghost use Rattle.std.specs.List.{AllByRecursion};
ghost use Rattle.plant_core.specs.Moments.{AreApart, IsReader, StandsAt, new_reader as named_new, place_of as place_in, reader_of, with_reader};

use block_reader::OwnFiles;
use block_record::ReaderName;
use node_feed::NodeReader;
use std::alloc::{AllocError, Global};

/// A reader, and the files of `one/` that it put there.
#[derive(Drop)]
pub struct Reader {
    pub node: NodeReader,
    pub own: OwnFiles,
}

/// Where the reader of a name stands.
fn place_of(name: &ReaderName, readers: &[Reader]) -> Option<usize>
    ensures place { result ≡ place_in name.now readers.now }
    ensures within { IfSome result (λ place. place < length readers.now) }
{
    readers
        .iter()
        .position(|reader| reader.node.name().as_bytes() == name.as_bytes())
}

/// The place of the reader of a name, who is appended where there is none: one that takes lines of at most
/// `max` bytes. At an error nothing has changed.
pub fn enrol(
    alloc: Global,
    max: usize,
    name: &ReaderName,
    readers: &mut Vec<Reader>,
) -> Result<usize, AllocError>
    requires each { AllByRecursion IsReader readers.old.items }
    requires apart { AreApart readers.old.items }
    ensures there { IfOk result (λ place. StandsAt readers.new.items place
        (reader_of max name.now readers.old.items)) }
    ensures readers { OnOk result (readers.new.items
        ≡ with_reader (reader_of max name.now readers.old.items) readers.old.items) }
    ensures each { AllByRecursion IsReader readers.new.items }
    ensures apart { AreApart readers.new.items }
    ensures err { OnErr result (readers.new.items ≡ readers.old.items) }
{
    match place_of(name, readers.as_slice()) {
        Some(place) => Ok(place),
        None => {
            let place = readers.len();
            readers.push(new_reader(alloc, max, name)?)?;
            Ok(place)
        }
    }
}

/// A reader of a name, whose node has told nothing.
fn new_reader(alloc: Global, max: usize, name: &ReaderName) -> Result<Reader, AllocError>
    ensures reader { IfOk result (λ reader. reader ≡ named_new max name.now) }
    ensures named { IfOk result IsReader }
{
    let name = name.clone()?;
    let _ = name.as_bytes();
    Ok(Reader {
        node: NodeReader::new(alloc, name, max),
        own: OwnFiles::new(alloc),
    })
}
