//! Where a file stands on the disk.

ghost use Rattle.std.specs.Prelude.{IfOk, IfSome, IsTrue, string_bytes};
ghost use Rattle.folder_shelf.specs.Names.{IsPlaceOf};

use crate::faults::Fault;
use crate::names::is_part;
use outer_world::FileName;
use std::alloc::Global;

/// The path of a file, and of the folder that it stands in.
#[derive(Drop)]
pub(crate) struct Place {
    pub(crate) folder: String,
    pub(crate) file: String,
}

/// Where the file of this name stands. A name that would leave the shelf's folder has no place: it has
/// to be a folder's name, a `/`, and the name of a file there.
pub(crate) fn place_of(alloc: Global, root: &str, name: &FileName) -> Result<Place, Fault>
    ensures { IfOk result (λ place. IsPlaceOf root.now name.now (string_bytes place.folder) (string_bytes place.file)) }
{
    let Ok(text) = str::from_utf8(name.as_bytes()) else {
        return Err(Fault::Failed);
    };
    match text.split_once('/') {
        Some((folder, last)) if is_part(folder) && is_part(last) => {
            let folder = format!(in alloc; "{root}/{folder}")?;
            let file = format!(in alloc; "{}/{last}", folder.as_str())?;
            Ok(Place { folder, file })
        }
        _ => Err(Fault::Failed),
    }
}
