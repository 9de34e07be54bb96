//! Laws of the names of files. The functions have no body: their contracts are the laws.

ghost use Rattle.one_block.specs.Laws.{NamesAreRead, FilesAreRead, LayoutsAreRead};

/// What is printed as a one-block name is read as its parts, and what is read prints back as itself.
pub fn names_are_read()
    ensures { NamesAreRead }
{}

/// What is made as a whole name is read as its bare name or its base, what is read is made so, and each
/// size and base have a file of their own.
pub fn files_are_read()
    ensures { FilesAreRead }
{}

/// The text of the layout of a size is read as the size, and no other text is.
pub fn layouts_are_read()
    ensures { LayoutsAreRead }
{}
