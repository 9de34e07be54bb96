//! Whose the names of a script are: a reader's or a client's, by their first use.

ghost use Rattle.std.specs.Prelude.{◌≡◌, ◌<◌, IfSome, OnOk, length};
ghost use Rattle.std.specs.Option.{option_copied};
ghost use Rattle.script_text.specs.Names.{place_of as place_as, role_at as role_at_as, turned, with_role, as_reader as as_reader_of, as_opened as as_opened_of, as_client as as_client_of, as_dropped as as_dropped_of, name_in as name_in_event, role_after as role_after_event, used_at, used_after};
ghost use Rattle.script_text.specs.Reading.{Gives, IsDone};

use crate::faults::LineFault;
use crate::script::Event;
use block_record::Bytes;
use std::alloc::{AllocError, Global};

/// What a name is in use for.
#[derive(Clone, Copy, PartialEq, Eq, Debug)]
pub enum Role {
    /// A reader.
    Reader,
    /// A client that was opened.
    Opened,
    /// A client that was dropped since it was last opened.
    Dropped,
}

/// A name and what it is in use for.
#[derive(Debug, Drop)]
pub struct Used {
    pub name: Bytes,
    pub role: Role,
}

/// Where a name stands among those in use.
fn place_of(name: &[u8], used: &[Used]) -> Option<usize>
    ensures place { result ≡ place_as name.now used.now }
    ensures within { IfSome result (λ place. place < length used.now) }
{
    used.iter().position(|one| one.name.as_bytes() == name)
}

/// The role of the name at a place.
fn role_at(used: &[Used], place: Option<usize>) -> Option<Role>
    ensures { result ≡ role_at_as used.now place }
{
    let one = used.get(place?)?;
    Some(one.role)
}

/// After bytes, a line or a death.
fn as_reader(held: Option<Role>) -> Option<Role>
    ensures { result ≡ as_reader_of held }
{
    match held {
        None | Some(Role::Reader) => Some(Role::Reader),
        Some(Role::Opened | Role::Dropped) => None,
    }
}

/// After an `open`.
fn as_opened(held: Option<Role>) -> Option<Role>
    ensures { result ≡ as_opened_of held }
{
    match held {
        None | Some(Role::Dropped) => Some(Role::Opened),
        Some(Role::Reader | Role::Opened) => None,
    }
}

/// After a look or a part.
fn as_client(held: Option<Role>) -> Option<Role>
    ensures { result ≡ as_client_of held }
{
    match held {
        None | Some(Role::Reader) => None,
        Some(Role::Opened) => Some(Role::Opened),
        Some(Role::Dropped) => Some(Role::Dropped),
    }
}

/// After a `drop`.
fn as_dropped(held: Option<Role>) -> Option<Role>
    ensures { result ≡ as_dropped_of held }
{
    match held {
        None | Some(Role::Reader) => None,
        Some(Role::Opened | Role::Dropped) => Some(Role::Dropped),
    }
}

/// The name of an event.
fn name_in(event: &Event) -> Option<&[u8]>
    ensures { option_copied result ≡ name_in_event event.now }
{
    match event {
        Event::Bytes { reader, .. } | Event::Line { reader, .. } | Event::Death { reader } => {
            Some(reader.as_bytes())
        }
        Event::Open { client, .. }
        | Event::Look { client }
        | Event::Part { client, .. }
        | Event::Drop { client } => Some(client.as_bytes()),
        Event::Merge | Event::Close => None,
    }
}

/// The role that the event's name has after it; none where the event doesn't fit.
fn role_after(event: &Event, held: Option<Role>) -> Option<Role>
    ensures { result ≡ role_after_event event.now held }
{
    match event {
        Event::Bytes { .. } | Event::Line { .. } | Event::Death { .. } => as_reader(held),
        Event::Open { .. } => as_opened(held),
        Event::Look { .. } | Event::Part { .. } => as_client(held),
        Event::Drop { .. } => as_dropped(held),
        Event::Merge | Event::Close => held,
    }
}

/// Gives the name at a place a role.
fn turn(place: usize, role: Role, used: &mut [Used])
    requires { place < length used.old }
    ensures { used.new ≡ turned place role used.old }
{
    used[place].role = role;
}

/// Gives a name a role, which stands at this place or nowhere yet.
fn put_role(
    alloc: Global,
    name: &[u8],
    role: Role,
    place: Option<usize>,
    used: &mut Vec<Used>,
) -> Result<(), AllocError>
    requires { IfSome place (λ p. p < length used.old.items) }
    ensures { OnOk result (used.new.items ≡ with_role name.now role used.old.items place) }
{
    match place {
        Some(place) => turn(place, role, used.as_mut_slice()),
        None => {
            let name = Bytes::new(alloc, name)?;
            used.push(Used { name, role })?;
        }
    }
    Ok(())
}

/// Takes note of an event of this name.
fn use_name(
    alloc: Global,
    event: &Event,
    name: &[u8],
    used: &mut Vec<Used>,
) -> Result<(), LineFault>
    ensures { IsDone result used.new.items
        (used_at event.now name.now used.old.items (place_as name.now used.old.items)) }
{
    let place = place_of(name, used.as_slice());
    let held = role_at(used.as_slice(), place);
    let role = role_after(event, held).ok_or(LineFault::Bad)?;
    put_role(alloc, name, role, place, used)?;
    Ok(())
}

/// Takes note of an event, whose name must fit what it was used for before.
#[tactic(auto, unfolding(crate::specs::Names::used_after))]
pub fn use_event(alloc: Global, event: &Event, used: &mut Vec<Used>) -> Result<(), LineFault>
    ensures { IsDone result used.new.items (used_after event.now used.old.items) }
{
    match name_in(event) {
        Some(name) => use_name(alloc, event, name, used),
        None => Ok(()),
    }
}
