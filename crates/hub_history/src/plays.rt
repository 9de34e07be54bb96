//! The rule of the table, and what each kind of step tells. These types are for the proofs alone.
ghost use Rattle.hub_history.specs.Turns.{KeepsTurns, opening_view, new_view, shared_view, joined_view, spent_view};
ghost use Rattle.hub_history.specs.Tells.{Draws, Takes, Arrives, Raises, Learns};

use crate::chronicle::Chronicle;
use crate::view::View;
use atomic_table::{Join, Play, Split, TableRule};
use std::marker::PhantomData;
use std::snapshot::Snapshot;

/// The rule. Its key is the value that the cell was opened with, which the first pass has seen.
pub struct Turns<V> {
    marker: PhantomData<V>,
}

impl<V: Chronicle> TableRule<Option<V>, View<V::Entry>, Snapshot<V>> for Turns<V> {
    ghost holds = { λ _. KeepsTurns V.entries_of V.marked };

    ghost first = { λ key. opening_view (V.entries_of key.value) };
}

/// A ticket is drawn.
pub struct Draw;

impl<V, E> Play<Option<V>, View<E>> for Draw {
    ghost then = { Draws };
}

/// The served ticket is read, and the value taken where it is one's own.
pub struct Take<V> {
    marker: PhantomData<V>,
}

impl<V: Chronicle> Play<Option<V>, View<V::Entry>> for Take<V> {
    ghost then = { Takes V.entries_of V.marked };
}

/// The same, and the value stays where it is.
pub struct Arrive<V> {
    marker: PhantomData<V>,
}

impl<V: Chronicle> Play<Option<V>, View<V::Entry>> for Arrive<V> {
    ghost then = { Arrives V.entries_of V.marked };
}

/// The value goes back, and the next ticket is served.
pub struct Raise<V> {
    marker: PhantomData<V>,
}

impl<V: Chronicle> Play<Option<V>, View<V::Entry>> for Raise<V> {
    ghost then = { Raises V.entries_of V.marked };
}

/// A pass learns that the lists which its last join put together begin its own.
pub struct Learn;

impl<V, E> Play<Option<V>, View<E>> for Learn {
    ghost then = { Learns };
}

/// A new pass that knows as much, drew no ticket and does not lead.
pub struct SplitPass;

impl<E> Split<View<E>> for SplitPass {
    ghost left = { shared_view };

    ghost right = { new_view };
}

/// One pass that knows what two did.
pub struct JoinPass;

impl<E> Join<View<E>> for JoinPass {
    ghost both = { joined_view };

    ghost spent = { spent_view };
}
