//! Names that stay inside the shelf's folder, and names in order.

ghost use Rattle.std.specs.Prelude.{◌≡◌, IsTrue, IfOk};
ghost use Rattle.outer_world.specs.Files.{is_in};
ghost use Rattle.folder_shelf.specs.Names.{AreSortedOf, is_part, joined};

use crate::faults::Fault;
use outer_world::FileName;
use std::alloc::Global;

/// Whether the text leads to one thing right in a folder, and nowhere else.
pub(crate) fn is_part(text: &str) -> bool
    ensures { result ≡ is_part text.now }
{
    !text.is_empty() && text != "." && text != ".." && !text.as_bytes().contains(&b'/')
}

/// The whole name of a file of this folder.
pub(crate) fn whole_name(alloc: Global, folder: &str, last: &str) -> Result<FileName, Fault>
    ensures text { IfOk result (λ name. name ≡ joined folder.now last.now) }
    ensures inside { IfOk result (λ name. IsTrue (is_in folder.now name)) }
{
    if !is_part(last) {
        return Err(Fault::Failed);
    }
    let text = format!(in alloc; "{folder}/{last}")?;
    Ok(FileName::from_vec(text.into_bytes()))
}

/// Puts the names in the order of their bytes, and keeps each once.
pub(crate) fn put_in_order(names: &mut Vec<FileName>)
    ensures { AreSortedOf names.old.items names.new.items }
{
    names.sort_unstable();
    names.dedup();
}
