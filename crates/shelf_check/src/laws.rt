//! A law of files. The function has no body: its contract is the law.

ghost use Rattle.shelf_check.specs.Laws.{GoodFilesAreTaken};

/// A file that has its form is refused for want of memory alone.
pub fn good_files_are_taken()
    ensures { GoodFilesAreTaken }
{}
