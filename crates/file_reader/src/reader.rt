//! A reader of a file whose messages are never all held at once.

ghost use Rattle.std.specs.Prelude.{◌≡◌, ◌≢◌, ◌≤◌, ◌<◌, ◌+◌, ◌^◌, ◌⊎◌, ◌∷◌, ◌++◌, [], List, ℕ, Option, None, Some, IsTrue, false, length, slice_get, IfOk, OnOk, OnErr};
ghost use Rattle.std.specs.Option.{is_some, option_copied};
ghost use Rattle.std.specs.Result.{is_err};
ghost use Rattle.outer_world.specs.Files.{Files};
ghost use Rattle.outer_world.specs.Shelves.{HasShelfCause};
ghost use Rattle.dbin_file.specs.Contents.{contents, message_place, told};
ghost use Rattle.dbin_file.specs.Reader.{AreFurther, end_fault, state_after};
ghost use Rattle.file_reader.specs.Reading.{HasRead, ReadsOn, UnlessMem, pass, place_of as place_of_next, unread};

use block_record::{Bytes, TypeName};
use dbin_file::{DbinFault, DbinReader};
use outer_world::{FileName, Shelf, ShelfFail};
use std::alloc::Global;
use std::marker::Model;

/// The number of bytes after which a file that has not ended is given up.
const READ_BYTES_MAX: u64 = 1 << 63;

/// Reads the messages of a container on a shelf, one after another. It holds those of one piece of
/// the file, which has at most 64 KiB, and the message that goes on after it.
#[derive(Drop)]
pub struct FileReader {
    name: FileName,
    /// How many bytes were read.
    at: u64,
    reader: DbinReader,
    /// Those that ended in the last piece.
    messages: Vec<Bytes>,
    /// The place in `messages` of the one that stands next.
    next: usize,
    /// The bytes of the messages that were passed over, and of their lengths.
    passed: u64,
    /// The file has ended, or is bad.
    over: bool,
}

impl Model for FileReader {
    ghost use Rattle.std.specs.Prelude.{drop};
    ghost use Rattle.file_reader.specs.Reading.{FileState};

    ghost Value = { FileState };

    ghost view = { λ r. record {
      name = r.name;
      at = r.at;
      reader = r.reader;
      left = drop r.next r.messages.items;
      passed = r.passed;
      over = r.over;
    } };
}

impl FileReader {
    /// A reader of the file of this name, of which it has read nothing.
    pub fn open(alloc: Global, name: FileName) -> FileReader
        ensures state { result ≡ unread name }
        ensures read { (files : Option Files) → HasRead files result [] [] }
    {
        FileReader {
            name,
            at: 0,
            reader: DbinReader::new(alloc),
            messages: Vec::new(alloc),
            next: 0,
            passed: 0,
            over: false,
        }
    }

    /// The name of the file.
    pub fn name(&self) -> &FileName
        ensures { result.now ≡ self.now.name }
    {
        &self.name
    }

    /// How many bytes of the file were read.
    pub fn bytes_read(&self) -> u64
        ensures { result ≡ self.now.at }
    {
        self.at
    }

    /// The type of the messages, once the header was read.
    pub fn block_type(&self) -> Option<&TypeName>
        ensures { option_copied result ≡ self.now.reader.block_type }
    {
        self.reader.block_type()
    }

    /// Why the bytes that were read are no whole container, if they are none.
    pub fn fault(&self) -> Option<DbinFault>
        ensures { result ≡ end_fault self.now.reader }
    {
        self.reader.finish().err()
    }

    /// The message that stands next, if one was read.
    pub fn message(&self) -> Option<&Bytes>
        ensures { option_copied result ≡ slice_get self.now.left 0 }
    {
        self.messages.get(self.next)
    }

    /// The place in the file where the next message's length begins, which its bytes follow; 0 where
    /// the header was not read.
    pub fn place(&self) -> u64
        ensures message { (files : Option Files) (front block_type : List ℕ) (given : List (List ℕ))
            → HasRead files self.now front given → self.now.reader.block_type ≡ Some block_type
            → result ≡ told (message_place block_type given) }
        ensures state { result ≡ place_of_next self.now }
    {
        match self.reader.block_type() {
            Some(block_type) => self
                .passed
                .saturating_add(7 + block_type.as_bytes().len() as u64),
            None => 0,
        }
    }

    /// Passes the next message over, if one was read.
    pub fn advance(&mut self)
        ensures state { self.new ≡ pass self.old self.old.left }
        ensures given { (files : Option Files) (front message : List ℕ) (given more : List (List ℕ))
            → HasRead files self.old front given → self.old.left ≡ message ∷ more
            → HasRead files self.new front (given ++ message ∷ []) }
        ensures later { (files : Option Files) (front message : List ℕ) (given more : List (List ℕ))
            → HasRead files self.old front given → self.old.left ≡ message ∷ more
            → self.old.passed < self.new.passed }
        ensures small { (files : Option Files) (front message : List ℕ) (given more : List (List ℕ))
            → HasRead files self.old front given → self.old.left ≡ message ∷ more
            → self.new.passed < 2 ^ 64 }
    {
        if let Some(message) = self.messages.get(self.next) {
            let size = message.as_bytes().len() as u64 + 4;
            self.passed = self.passed.saturating_add(size);
            self.next += 1;
        }
    }

    /// Reads on until a message stands next, or none will come: the file has ended, or is bad. After
    /// `ShelfFail::Failed` the call may be made again. After `ShelfFail::Mem`, which a file of 2^63
    /// bytes is answered too, the file has to be opened anew.
    pub fn fill<S: Shelf>(&mut self, shelf: &mut S) -> Result<(), ShelfFail>
        ensures read { UnlessMem result (ReadsOn (S.files shelf.old) self.old self.new) }
        ensures stands { OnOk result (self.new.left ≡ [] → IsTrue self.new.over) }
        ensures name { self.new.name ≡ self.old.name }
        ensures files { S.files shelf.new ≡ S.files shelf.old }
        ensures staged { S.staged shelf.new ≡ S.staged shelf.old }
        ensures cause { HasShelfCause (S.shelf_faults shelf.old) (S.shelf_faults shelf.new) result }
    {
        while !self.over && self.next >= self.messages.len() {
            self.read_piece(shelf)?;
        }
        Ok(())
    }

    /// Reads a piece of the file, or finds that it has ended.
    fn read_piece<S: Shelf>(&mut self, shelf: &mut S) -> Result<(), ShelfFail>
        requires none { self.old.left ≡ [] }
        requires goes { self.old.over ≡ false }
        ensures read { UnlessMem result (ReadsOn (S.files shelf.old) self.old self.new) }
        ensures longer { OnOk result
            (IsTrue self.new.over ⊎ ((self.old.at < self.new.at) × (self.new.at ≤ 2 ^ 64))) }
        ensures name { self.new.name ≡ self.old.name }
        ensures files { S.files shelf.new ≡ S.files shelf.old }
        ensures staged { S.staged shelf.new ≡ S.staged shelf.old }
        ensures cause { HasShelfCause (S.shelf_faults shelf.old) (S.shelf_faults shelf.new) result }
    {
        if self.at >= READ_BYTES_MAX {
            return Err(ShelfFail::Mem);
        }
        let mut buf = [0; 65_536];
        let count = shelf.read_at(&self.name, self.at, &mut buf)?;
        if count == 0 {
            self.over = true;
            return Ok(());
        }
        self.take(&buf[..count])
    }

    /// Takes a piece that was read. There are no messages but those that it ends.
    fn take(&mut self, piece: &[u8]) -> Result<(), ShelfFail>
        requires room { self.old.at + length piece.now < 2 ^ 64 }
        ensures memory { OnErr result (result ≡ Err ShelfFail.Mem) }
        ensures state { (text : List ℕ) → self.old.reader ≡ state_after text
            → OnOk result (self.new.reader ≡ state_after (text ++ piece.now)) }
        ensures messages { (text : List ℕ) → self.old.reader ≡ state_after text
            → OnOk result (AreFurther text piece.now self.new.left) }
        ensures over { (text : List ℕ) → self.old.reader ≡ state_after text
            → OnOk result (self.new.over ≡ is_some (contents (text ++ piece.now)).fault) }
        ensures at { OnOk result (self.new.at ≡ self.old.at + length piece.now) }
        ensures small { OnOk result (self.new.at < 2 ^ 64) }
        ensures name { self.new.name ≡ self.old.name }
        ensures passed { self.new.passed ≡ self.old.passed }
    {
        self.messages.clear();
        self.next = 0;
        let fed = self.reader.feed(piece, &mut self.messages);
        match faulty(fed) {
            Ok(over) => {
                self.over = over;
                self.at += piece.len() as u64;
                Ok(())
            }
            Err(fail) => {
                self.messages.clear();
                Err(fail)
            }
        }
    }
}

/// Whether a container was found bad.
fn faulty(answer: Result<(), DbinFault>) -> Result<bool, ShelfFail>
    ensures memory { OnOk result (answer ≢ Err DbinFault.Mem) }
    ensures fault { IfOk result (λ faulty. faulty ≡ is_err answer) }
    ensures refused { OnErr result (result ≡ Err ShelfFail.Mem) }
{
    match answer {
        Ok(()) => Ok(false),
        Err(DbinFault::Mem) => Err(ShelfFail::Mem),
        Err(DbinFault::NotDbin { .. })
        | Err(DbinFault::BadVersion { .. })
        | Err(DbinFault::MessageTooLong { .. })
        | Err(DbinFault::Truncated { .. }) => Ok(true),
    }
}
