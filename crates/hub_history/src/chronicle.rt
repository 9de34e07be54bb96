//! What a cell can hold, and what a turn may do to it.
ghost use Rattle.std.specs.Prelude.{◌≡◌, Bool, true, false, List, length};
ghost use mathlib.Core.List.{IsPrefix};
ghost use Rattle.hub_history.specs.Chronicles.{Covers};

/// A value that stands for a list of entries, which are plain data. Some entries are marked: only the
/// pass that leads may have them added.
pub trait Chronicle {
    /// One entry of the list.
    type Entry;

    ghost entries_of: { Self → List Self.Entry };

    ghost marked: { Self.Entry → Bool };

    /// How many entries the list has.
    fn entries(&self) -> u64
        ensures { result ≡ length (entries_of self.now) };
}

/// What one turn does with the value.
pub trait Job<V: Chronicle> {
    /// The answer.
    type Out;

    // Whether it may add marked entries.
    ghost marks: { Self → Bool };

    // What it needs of the list that it finds.
    ghost needs: { Self → List V.Entry → Type 0 };

    // What it promises of the list that it finds, the list that it leaves and its answer.
    ghost promises: { Self → List V.Entry → List V.Entry → Self.Out → Type 0 };

    /// Does it. The list may only grow, and without `marks` only by entries that are not marked.
    fn run(self, value: &mut V) -> Self::Out
        requires { needs self (V.entries_of value.old) }
        ensures grows { IsPrefix (V.entries_of value.old) (V.entries_of value.new) }
        ensures unmarked { marks self ≡ false
            → Covers V.marked (V.entries_of value.old) (V.entries_of value.new) }
        ensures promise { promises self (V.entries_of value.old) (V.entries_of value.new) result };
}
