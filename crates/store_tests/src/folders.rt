//! A shelf over a folder of the disk, and its lock.

use folder_shelf::{FolderLock, FolderShelf, LockFail};
use outer_world::{FileName, Shelf, ShelfFail, read_file, write_file};
use std::alloc::{AllocError, Global};
use std::fs;
use std::test::Fail;

fn name(alloc: Global, text: &str) -> Result<FileName, AllocError> {
    FileName::new(alloc, text.as_bytes())
}

/// An empty place for a test.
fn clear(rt: &HostRuntime, root: &str) {
    let _ = fs::remove_dir_all(rt, root);
}

/// What may be moved to a thread.
fn may_move<T: Send>(_: &T) {}

/// Whether the folder shows just these files, one after another.
fn shows(
    alloc: Global,
    shelf: &mut FolderShelf<HostRuntime>,
    folder: &str,
    want: &[&str],
) -> Result<bool, ShelfFail> {
    let mut names = Vec::new(alloc);
    shelf.list(alloc, folder, &mut names)?;
    let mut same = names.len() == want.len();
    for (name, want) in names.iter().zip(want) {
        same = same && name.as_bytes() == want.as_bytes();
    }
    Ok(same)
}

#[test]
fn files_come_and_go(rt: HostRuntime) -> Result<(), Fail> {
    let (alloc, root) = (rt.alloc(), "folder_shelf_files");
    clear(&rt, root);
    let mut shelf = FolderShelf::new(rt, root, 7)?;
    may_move(&shelf);
    let (one, two) = (name(alloc, "one/b")?, name(alloc, "one/a")?);
    assert!(rt; matches!(shows(alloc, &mut shelf, "one", &[]), Ok(true)));
    for (name, text) in [(&one, b"first".as_slice()), (&two, b""), (&one, b"second")] {
        assert!(rt; write_file(&mut shelf, name, text).is_ok());
    }
    assert!(rt; fs::create_dir(&rt, "folder_shelf_files/one/inner").is_ok());
    assert!(rt;
        matches!(
            shows(alloc, &mut shelf, "one", &["one/a", "one/b"]),
            Ok(true)
        )
    );
    assert!(rt;
        matches!(read_file(alloc, &mut shelf, &one), Ok(Some(text)) if text.as_slice() == b"second".as_slice())
    );
    assert!(rt; matches!(shelf.size(&two), Ok(Some(0))));
    assert!(rt; shelf.remove(&two).is_ok() && shelf.remove(&two).is_ok());
    for gone in [&two, &name(alloc, "one/inner")?] {
        assert!(rt; matches!(shelf.size(gone), Ok(None)));
    }
    assert!(rt; matches!(shows(alloc, &mut shelf, "one", &["one/b"]), Ok(true)));
    clear(&rt, root);
    Ok(())
}

#[test]
fn pieces_are_read_and_a_file_may_vanish(rt: HostRuntime) -> Result<(), Fail> {
    let (alloc, root) = (rt.alloc(), "folder_shelf_pieces");
    clear(&rt, root);
    let mut shelf = FolderShelf::new(rt, root, 7)?;
    let one = name(alloc, "one/a")?;
    assert!(rt; write_file(&mut shelf, &one, b"0123456789").is_ok());
    let mut buf = [0; 4];
    for (at, want) in [
        (0, b"0123".as_slice()),
        (4, b"4567"),
        (8, b"89"),
        (2, b"2345"),
        (10, b""),
        (1 << 63, b""),
    ] {
        let count = shelf.read_at(&one, at, &mut buf);
        assert!(rt;
            matches!(count, Ok(count) if &buf[..count] == want),
            "at {at}"
        );
    }
    assert!(rt; matches!(shows(alloc, &mut shelf, "one", &["one/a"]), Ok(true)));
    let mut other = FolderShelf::new(rt, root, 8)?;
    assert!(rt; fs::remove_file(&rt, "folder_shelf_pieces/one/a").is_ok());
    assert!(rt; matches!(other.read_at(&one, 0, &mut buf), Ok(0)));
    assert!(rt; matches!(read_file(alloc, &mut other, &one), Ok(None)));
    clear(&rt, root);
    Ok(())
}

#[test]
fn what_is_staged_is_gone_unless_it_is_put_in_place(rt: HostRuntime) -> Result<(), Fail> {
    let (alloc, root) = (rt.alloc(), "folder_shelf_stages");
    clear(&rt, root);
    let one = name(alloc, "one/a")?;
    {
        let mut shelf = FolderShelf::new(rt, root, 7)?;
        assert!(rt; shelf.stage(b"left").is_ok());
        assert!(rt; fs::exists(&rt, "folder_shelf_stages/stage.7")?);
        shelf.unstage();
        assert!(rt; !fs::exists(&rt, "folder_shelf_stages/stage.7")?);
        assert!(rt; shelf.stage(b"left").is_ok());
    }
    assert!(rt; !fs::exists(&rt, "folder_shelf_stages/stage.7")?);
    // A stop left a stage, and another process's next one is begun under its name.
    fs::write(&rt, "folder_shelf_stages/stage.7", "from a stop")?;
    let mut shelf = FolderShelf::new(rt, root, 7)?;
    assert!(rt;
        shelf.stage(b"ab").is_ok() && shelf.stage(b"c").is_ok() && shelf.commit(&one).is_ok()
    );
    assert!(rt;
        matches!(read_file(alloc, &mut shelf, &one), Ok(Some(text)) if text.as_slice() == b"abc".as_slice())
    );
    assert!(rt; shelf.commit(&one).is_ok());
    assert!(rt; matches!(shelf.size(&one), Ok(Some(0))));
    assert!(rt; !fs::exists(&rt, "folder_shelf_stages/stage.7")?);
    clear(&rt, root);
    Ok(())
}

#[test]
fn a_name_that_leaves_the_folder_is_refused(rt: HostRuntime) -> Result<(), Fail> {
    let (alloc, root) = (rt.alloc(), "folder_shelf_names");
    clear(&rt, root);
    let mut shelf = FolderShelf::new(rt, root, 7)?;
    let mut buf = [0; 4];
    for text in [
        "",
        "a",
        "/a",
        "a/",
        "../a",
        "a/..",
        "./a",
        "a/.",
        "a/b/c",
        "/etc/hosts",
        "a/b\0",
    ] {
        let name = name(alloc, text)?;
        assert!(rt; shelf.stage(b"x").is_ok());
        assert!(rt; shelf.commit(&name) == Err(ShelfFail::Failed), "{text}");
        assert!(rt; shelf.remove(&name) == Err(ShelfFail::Failed), "{text}");
        assert!(rt;
            matches!(shelf.size(&name), Err(ShelfFail::Failed)),
            "{text}"
        );
        assert!(rt;
            matches!(shelf.read_at(&name, 0, &mut buf), Err(ShelfFail::Failed)),
            "{text}"
        );
    }
    for folder in ["", ".", "..", "a/b", "/etc"] {
        assert!(rt; shows(alloc, &mut shelf, folder, &[]).is_err(), "{folder}");
    }
    clear(&rt, root);
    Ok(())
}

/// Whether a second lock is refused while one is held, and the folder is settled under the one.
fn is_locked_and_settled(rt: &HostRuntime, root: &str) -> Result<bool, LockFail> {
    let lock = FolderLock::take(rt, root)?;
    let second = FolderLock::take(rt, root);
    Ok(lock.settle(rt).is_ok() && matches!(&second, Err(LockFail::Taken)))
}

#[test]
fn a_folder_is_locked_once_and_settled(rt: HostRuntime) -> Result<(), Fail> {
    let root = "folder_shelf_lock";
    clear(&rt, root);
    let orphan = FolderLock::take(&rt, "folder_shelf_none/in_none");
    assert!(rt; matches!(&orphan, Err(LockFail::Failed)));
    fs::create_dir_all(&rt, "folder_shelf_lock/one")?;
    for file in ["folder_shelf_lock/stage.12", "folder_shelf_lock/stage.x"] {
        fs::write(&rt, file, "")?;
    }
    assert!(rt; matches!(is_locked_and_settled(&rt, root), Ok(true)));
    assert!(rt; !fs::exists(&rt, "folder_shelf_lock/stage.12")?);
    assert!(rt; fs::exists(&rt, "folder_shelf_lock/stage.x")?);
    assert!(rt; matches!(is_locked_and_settled(&rt, root), Ok(true)));
    clear(&rt, root);
    Ok(())
}
