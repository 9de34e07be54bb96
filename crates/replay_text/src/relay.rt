//! What a relay was loaded with, and what was merged, appended to a text. Without memory the text
//! stays as it is.

ghost use Rattle.std.specs.Prelude.{◌≡◌, ◌++◌, OnOk, OnErr};
ghost use Rattle.replay_text.specs.Lines.{load_fault_line, loaded_line, merged_line};

use crate::parts::{push_texts, push_two};
use bundle_merger::Merged;
use shelf_check::LoadFault;
use shelf_load::Loaded;
use std::alloc::AllocError;
use text_parts::{Part, push_parts};

/// Appends the line of what a shelf gave the relay.
pub fn push_loaded(loaded: Loaded, out: &mut Vec<u8>) -> Result<(), AllocError>
    ensures ok { OnOk result (out.new.items ≡ out.old.items ++ loaded_line loaded) }
    ensures err { OnErr result (out.new.items ≡ out.old.items) }
{
    let parts = [
        Part::Text(b"load "),
        Part::Number(loaded.admitted),
        Part::Text(b" "),
        Part::Number(loaded.waiting),
        Part::Text(b" "),
        Part::Number(loaded.passed),
        Part::Text(b" "),
        Part::Number(loaded.conflicts),
        Part::Text(b"\n"),
    ];
    push_parts(parts.as_slice(), out)
}

/// Appends the line that says why a shelf was not loaded. A refusal of the shelf itself, and want
/// of memory, have none.
pub fn push_load_fault(fault: &LoadFault, out: &mut Vec<u8>) -> Result<(), AllocError>
    ensures ok { OnOk result (out.new.items ≡ out.old.items ++ load_fault_line fault.now) }
    ensures err { OnErr result (out.new.items ≡ out.old.items) }
{
    match fault {
        LoadFault::Store(_) => Ok(()),
        LoadFault::KindClash { held, offered } => push_texts(
            b"load fault ",
            b"kind clash ",
            held.as_bytes(),
            offered.as_bytes(),
            out,
        ),
        LoadFault::HistoryFull { len, need } => {
            push_two(b"load fault ", b"history full ", *len, *need, out)
        }
    }
}

/// Appends the line of what a merge did.
pub fn push_merged(merged: Merged, out: &mut Vec<u8>) -> Result<(), AllocError>
    ensures ok { OnOk result (out.new.items ≡ out.old.items ++ merged_line merged) }
    ensures err { OnErr result (out.new.items ≡ out.old.items) }
{
    push_two(b"merge", b" ", merged.bundles, merged.stored, out)
}
