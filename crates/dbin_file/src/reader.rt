//! The reader of a container.

ghost use Rattle.std.specs.Prelude.{◌≡◌, ◌≢◌, ◌++◌, ◌≤◌, ◌<◌, ◌^◌, ℕ, List, Some, None, Err, [], length, IsTrue};
ghost use Rattle.std.specs.Option.{option_copied, is_some};
ghost use Rattle.dbin_file.specs.Messages.{AreMessages, IsWithin, is_partial};
ghost use Rattle.dbin_file.specs.Contents.{contents, container_text, message_place};
ghost use Rattle.dbin_file.specs.Header.{IsInHeader};
ghost use Rattle.block_record.specs.Words.{Answers, GrowsBy};
ghost use Rattle.dbin_file.specs.Reader.{state_after, resumed, end_fault, found, message_fault, with_piece, without_memory, UnlessMem, IsRead, IsCutShort, IsCutShortAt};

use crate::faults::DbinFault;
use crate::headers::{TYPE_AT, header_fault, header_size};
use crate::messages::{Begun, message_begun, missing};
use block_record::{Bytes, TypeName};
use std::alloc::Global;
use std::marker::Model;
use std::mem;

/// A reader of one container, which comes in any pieces.
#[derive(Drop)]
pub struct DbinReader {
    alloc: Global,
    /// None as long as the header isn't whole.
    block_type: Option<TypeName>,
    fault: Option<DbinFault>,
    /// The place where `partial` begins.
    at: u64,
    /// The header or the message that has begun.
    partial: Vec<u8>,
}

impl Model for DbinReader {
    ghost use Rattle.std.specs.Prelude.{IfSome, IsTrue};
    ghost use Rattle.dbin_file.specs.Messages.{is_partial};
    ghost use Rattle.dbin_file.specs.Reader.{ReaderState};

    ghost Value = { ReaderState };

    ghost view = { λ r. record {
      block_type = r.block_type;
      fault = r.fault;
      at = r.at;
      partial = r.partial.items;
    } };

    ghost invariant = { λ r. IfSome r.block_type (λ _. IsTrue (is_partial r.partial.items)) };
}

impl DbinReader {
    /// A reader that was fed nothing.
    #[tactic(auto, unfolding(crate::specs::Header::header_fault, crate::specs::Header::header_size))]
    pub fn new(alloc: Global) -> DbinReader
        ensures { result ≡ state_after [] }
    {
        DbinReader {
            alloc,
            block_type: None,
            fault: None,
            at: 0,
            partial: Vec::new(alloc),
        }
    }

    /// A reader that goes on at this place of a container whose messages have this type. A message
    /// begins there.
    pub fn resume(alloc: Global, block_type: TypeName, at: u64) -> DbinReader
        ensures stands { result ≡ resumed block_type at }

        // It is the one that was fed the header and the messages before this place.
        ensures state { (messages : List (List ℕ)) → AreMessages messages
            → at ≡ message_place block_type messages
            → result ≡ state_after (container_text block_type messages) }
    {
        // What the bytes of a type are, the clauses of this call say.
        let _text = block_type.as_bytes();
        DbinReader {
            alloc,
            block_type: Some(block_type),
            fault: None,
            at,
            partial: Vec::new(alloc),
        }
    }

    /// Reads a further piece of the container, and appends the messages that end in it, up to the
    /// first fault.
    pub fn feed(&mut self, piece: &[u8], out: &mut Vec<Bytes>) -> Result<(), DbinFault>
        // Whatever text was fed before, in any pieces, all of it was read, or a front of it where
        // there was no memory.
        ensures read { (text : List ℕ) → self.old ≡ state_after text → UnlessMem result
            (IsRead text piece.now result self.new out.old.items out.new.items) }
        ensures memory { (text : List ℕ) → self.old ≡ state_after text → result ≡ Err DbinFault.Mem
            → IsCutShort text piece.now self.new out.old.items out.new.items }
        ensures keeps { result ≡ Err DbinFault.Mem → self.new.fault ≡ Some DbinFault.Mem }

        // After a fault it answers the same fault, and gives nothing.
        ensures stopped { (fault : DbinFault) → self.old.fault ≡ Some fault
            → (result ≡ Err fault) × (self.new ≡ self.old) × (out.new ≡ out.old) }
    {
        if let Some(fault) = self.fault {
            return Err(fault);
        }
        match self.take_piece(piece, out) {
            Err(DbinFault::Mem) => self.stop(DbinFault::Mem),
            taken => taken,
        }
    }

    /// Ends the container, which is whole where its header is and no message has begun.
    pub fn finish(&self) -> Result<(), DbinFault>
        ensures { Answers result (end_fault self.now) }
    {
        if let Some(fault) = self.fault {
            return Err(fault);
        }
        if self.block_type.is_none() {
            return Err(DbinFault::Truncated { at: 0 });
        }
        if self.partial.is_empty() {
            Ok(())
        } else {
            Err(DbinFault::Truncated { at: self.at })
        }
    }

    /// The type of the messages, once the header was read.
    pub fn block_type(&self) -> Option<&TypeName>
        ensures { option_copied result ≡ self.now.block_type }
    {
        self.block_type.as_ref()
    }

    /// The place of the header or of the message that has begun, or else that of the next message.
    pub fn place(&self) -> u64
        ensures { result ≡ self.now.at }
    {
        self.at
    }

    /// Takes a piece, where there was no fault before.
    fn take_piece(&mut self, piece: &[u8], out: &mut Vec<Bytes>) -> Result<(), DbinFault>
        requires { self.old.fault ≡ None }
        ensures read { (text : List ℕ) → self.old ≡ state_after text → UnlessMem result
            (IsRead text piece.now result self.new out.old.items out.new.items) }
        ensures memory { (text : List ℕ) → self.old ≡ state_after text → result ≡ Err DbinFault.Mem
            → IsCutShort text piece.now (without_memory self.new) out.old.items out.new.items }
    {
        if self.block_type.is_some() {
            return self.take_messages(piece, out);
        }
        if self.partial.is_empty() {
            return self.begin(piece, out);
        }
        self.partial.extend_from_slice(piece)?;
        let text = mem::replace(&mut self.partial, Vec::new(self.alloc));
        self.begin(text.as_slice(), out)
    }

    /// Takes all of the container so far, of which nothing is kept.
    fn begin(&mut self, text: &[u8], out: &mut Vec<Bytes>) -> Result<(), DbinFault>
        requires named { self.old.block_type ≡ None }
        requires good { self.old.fault ≡ None }
        requires empty { self.old.partial ≡ [] }
        ensures answer { UnlessMem result (Answers result (contents text.now).fault) }
        ensures state { UnlessMem result (self.new ≡ state_after text.now) }
        ensures grows { UnlessMem result
            (GrowsBy out.old.items out.new.items (contents text.now).messages) }
        ensures memory { (before piece : List ℕ) → text.now ≡ before ++ piece → IsInHeader before
            → result ≡ Err DbinFault.Mem
            → IsCutShort before piece (without_memory self.new) out.old.items out.new.items }
    {
        self.at = 0;
        if let Some(fault) = header_fault(text) {
            return self.stop(fault);
        }
        let Some(size) = header_size(text) else {
            self.partial.extend_from_slice(text)?;
            return Ok(());
        };
        let (head, rest) = text.split_at(size);
        let Some(block_type) = TypeName::new(self.alloc, &head[TYPE_AT..])? else {
            unreachable!();
        };
        self.block_type = Some(block_type);
        self.at = size as u64;
        self.take_messages(rest, out)
    }

    /// Takes a piece of the messages.
    fn take_messages(&mut self, piece: &[u8], out: &mut Vec<Bytes>) -> Result<(), DbinFault>
        requires good { self.old.fault ≡ None }
        requires begun { IsTrue (is_some self.old.block_type) }
        requires place { self.old.at < 2 ^ 64 }
        requires part { IsTrue (is_partial self.old.partial) }
        ensures answer { UnlessMem result (Answers result (message_fault self.old piece.now)) }
        ensures state { UnlessMem result (self.new ≡ with_piece self.old piece.now) }
        ensures grows { UnlessMem result
            (GrowsBy out.old.items out.new.items (found self.old piece.now).0) }
        ensures memory { result ≡ Err DbinFault.Mem → IsCutShortAt self.old piece.now
            (without_memory self.new) out.old.items out.new.items }
    {
        let mut rest = piece;
        while !rest.is_empty() {
            let count = missing(self.partial.as_slice()).min(rest.len());
            let (front, more) = rest.split_at(count);
            self.go_on(front, out)?;
            rest = more;
        }
        Ok(())
    }

    /// Goes on with the message that has begun, up to its end at the most.
    fn go_on(&mut self, front: &[u8], out: &mut Vec<Bytes>) -> Result<(), DbinFault>
        requires good { self.old.fault ≡ None }
        requires begun { IsTrue (is_some self.old.block_type) }
        requires within { IsWithin (self.old.partial ++ front.now) }
        ensures answer { UnlessMem result (Answers result (message_fault self.old front.now)) }
        ensures state { UnlessMem result (self.new ≡ with_piece self.old front.now) }
        ensures grows { UnlessMem result
            (GrowsBy out.old.items out.new.items (found self.old front.now).0) }
        ensures memory { result ≡ Err DbinFault.Mem → out.new.items ≡ out.old.items }
        ensures stays { result ≡ Err DbinFault.Mem
            → without_memory self.new ≡ without_memory self.old }
    {
        let at = self.at;
        self.partial.extend_from_slice(front)?;
        match message_begun(self.partial.as_slice()) {
            Begun::Part => Ok(()),
            Begun::TooLong(length) => {
                self.partial.clear();
                self.stop(DbinFault::MessageTooLong { at, length })
            }
            Begun::Whole => {
                let message = Bytes::new(self.alloc, &self.partial[4..]);
                let size = self.partial.len() as u64;
                self.partial.clear();
                out.push(message?)?;
                self.at = at.saturating_add(size);
                Ok(())
            }
        }
    }

    /// Stops at the fault.
    fn stop(&mut self, fault: DbinFault) -> Result<(), DbinFault>
        ensures answer { result ≡ Err fault }
        ensures state { self.new ≡ record self.old { fault = Some fault; partial = [] } }
    {
        self.fault = Some(fault);
        self.partial.clear();
        Err(fault)
    }
}
