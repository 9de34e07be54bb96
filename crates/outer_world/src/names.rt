//! Names of files.

ghost use Rattle.std.specs.Prelude.{◌≡◌, IfOk};
ghost use Rattle.outer_world.specs.Files.{is_in, is_last_part};

use std::alloc::{AllocError, Global};
use std::cmp::Ordering;
use std::marker::Model;

/// The whole name of a file: its folder, a `/`, and its name there. Names are ordered by their
/// bytes, and contracts see them as lists.
#[derive(Clone, Debug, Drop)]
pub struct FileName {
    text: Vec<u8>,
}

impl Model for FileName {
    ghost use Rattle.std.specs.Prelude.{List, ℕ};

    ghost Value = { List ℕ };

    ghost view = { λ n. n.text.items };
}

impl PartialEq for FileName {
    ghost use Rattle.std.specs.Str.{bytes_eq};
    ghost use Rattle.std.specs.Cmp.{partial_equiv_from_equiv};
    ghost use Rattle.std.specs.Cmp.Lexicographic.{nat_list_eq_equiv};

    ghost eq = { bytes_eq };

    ghost laws = { partial_equiv_from_equiv nat_list_eq_equiv };

    fn eq(&self, other: &FileName) -> bool {
        self.text == other.text
    }
}

impl Eq for FileName {
    ghost use Rattle.std.specs.Cmp.Lexicographic.{nat_list_eq_equiv};

    ghost laws = { nat_list_eq_equiv };
}

impl Ord for FileName {
    ghost use Rattle.std.proofs.Common.{rules};
    ghost use Rattle.std.specs.Cmp.Rules.{comparing};
    ghost use Rattle.std.specs.Cmp.Lexicographic.{slice_cmp};
    ghost use Rattle.std.specs.Ordering.{nat_cmp};

    ghost cmp = { slice_cmp nat_cmp };

    ghost total = { Prim.search (comparing, rules) };

    ghost matches_partial_cmp = { Prim.search (comparing, rules) };

    ghost matches_eq = { Prim.search (comparing, rules) };

    fn cmp(&self, other: &FileName) -> Ordering {
        self.text.cmp(&other.text)
    }
}

impl PartialOrd for FileName {
    ghost use Rattle.std.proofs.Common.{rules};
    ghost use Rattle.std.specs.Cmp.Rules.{comparing};
    ghost use Rattle.std.specs.Cmp.{partial_order_from_own_ties};
    ghost use Rattle.std.specs.Cmp.Lexicographic.{slice_cmp};
    ghost use Rattle.std.specs.Ordering.{nat_cmp, as_partial_cmp};

    ghost partial_cmp = { as_partial_cmp (slice_cmp nat_cmp) };

    ghost laws = { partial_order_from_own_ties (Prim.search (comparing, rules)) (Prim.search (comparing, rules)) };

    fn partial_cmp(&self, other: &FileName) -> Option<Ordering> {
        Some(self.cmp(other))
    }
}

impl FileName {
    /// A name of these bytes.
    pub fn new(alloc: Global, text: &[u8]) -> Result<FileName, AllocError>
        ensures { IfOk result (λ name. name ≡ text.now) }
    {
        Ok(FileName {
            text: Vec::from_slice(alloc, text)?,
        })
    }

    /// The name that a vector's bytes are. It takes no memory.
    pub fn from_vec(text: Vec<u8>) -> FileName
        ensures { result ≡ text.items }
    {
        FileName { text }
    }

    /// The bytes of the name.
    pub fn as_bytes(&self) -> &[u8]
        ensures { result.now ≡ self.now }
    {
        self.text.as_slice()
    }

    /// Whether it is the name of a file right in this folder.
    pub fn is_in(&self, folder: &str) -> bool
        ensures { result ≡ is_in folder.now self.now }
    {
        let name = self.as_bytes();
        if name.len() < folder.len() {
            return false;
        }
        let (front, back) = name.split_at(folder.len());
        front == folder.as_bytes() && is_last_part(back)
    }
}

/// Whether this is a `/`, and a text without one.
fn is_last_part(text: &[u8]) -> bool
    ensures { result ≡ is_last_part text.now }
{
    match text.split_first() {
        Some((byte, bytes)) => *byte == b'/' && !bytes.contains(&b'/'),
        None => false,
    }
}
