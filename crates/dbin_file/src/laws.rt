//! Laws of containers. The functions have no body: their contracts are the laws.

ghost use Rattle.dbin_file.specs.Laws.{ContainerIsRead, ReadIsSpelled, WholeIsContainer};

/// A container of a type and of messages, none of them too long, is read as this type and these
/// messages, with no fault.
pub fn container_is_read()
    ensures { ContainerIsRead }
{}

/// A text of bytes whose header is whole is the container of its messages, and what follows them. So
/// a message stands where the container of those before it ends.
pub fn read_is_spelled()
    ensures { ReadIsSpelled }
{}

/// A text of bytes at whose end a reader has no fault is the container of its type and its messages.
pub fn whole_is_container()
    ensures { WholeIsContainer }
{}
