//! A file that holds one block, in its folder.

ghost use Rattle.std.specs.Prelude.{◌≡◌};
ghost use Rattle.shelf_check.specs.Singles.{SingleAnswers};

use block_record::TypeName;
use one_block::{FileFault, Folder, form_of, read_single};
use outer_world::FileName;
use std::alloc::Global;

/// The type of the file of one block in a folder, by its whole name and its text, or where it is bad.
/// It must be the type of the files before it.
pub fn check_single(
    alloc: Global,
    folder: Folder,
    name: &FileName,
    text: &[u8],
    kept: &Option<TypeName>,
) -> Result<TypeName, FileFault>
    ensures { SingleAnswers folder name.now text.now kept.now result }
{
    match form_of(alloc, folder, name)? {
        Some(form) => {
            let read = read_single(alloc, &form, name, text, kept)?;
            Ok(read.block_type)
        }
        None => Err(FileFault::Bad { at: 0 }),
    }
}
