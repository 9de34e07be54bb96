//! What the files of a shelf keep of a relay, as definitions, and the laws of loading and of each
//! change of a file. The functions have no body: the contract of each is the law.
#![tactic(auto)]

ghost use Rattle.store_files.specs.Laws.{
  LoadKeepsFiles,
  PutFileKeeps,
  OwnFileShows,
  ForkFileKeeps,
  BundleFileKeeps,
  OtherFileKeeps,
  SweepFileKeeps,
  RemoveFileKeeps,
  ForkFileShows,
  BundleFileShows,
};

/// Loading brings back every block of the history, with the old final path as a front of the new one.
pub fn load_keeps_files()
    ensures { LoadKeepsFiles }
{}

/// A block's own file is put, or the call fails.
pub fn put_file_keeps()
    ensures { PutFileKeeps }
{}

/// A block whose own file is there is shown.
pub fn own_file_shows()
    ensures { OwnFileShows }
{}

/// The file of a block that is passed is put into `forked/`, or the call fails.
pub fn fork_file_keeps()
    ensures { ForkFileKeeps }
{}

/// A plan's bundle is put into its folder, or the call fails.
pub fn bundle_file_keeps()
    ensures { BundleFileKeeps }
{}

/// A file of another folder is put, or the call fails.
pub fn other_file_keeps()
    ensures { OtherFileKeeps }
{}

/// A file of `one/` whose block may be swept is removed, or the call fails.
pub fn sweep_file_keeps()
    ensures { SweepFileKeeps }
{}

/// A file of `one/` whose block is not held is removed, or the call fails.
pub fn remove_file_keeps()
    ensures { RemoveFileKeeps }
{}

/// A block whose file is in `forked/` is shown there.
pub fn fork_file_shows()
    ensures { ForkFileShows }
{}

/// Each block of a bundle that was put is shown where stored final blocks are looked for.
pub fn bundle_file_shows()
    ensures { BundleFileShows }
{}
