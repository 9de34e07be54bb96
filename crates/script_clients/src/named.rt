//! A client under its name.

ghost use Rattle.std.specs.Prelude.{◌≡◌, ◌<◌, length, IfSome};
ghost use Rattle.script_clients.specs.Clients.{place_of as place_in};

use block_record::Bytes;
use relay_session::Client;

/// A client under its name: none where its request was refused.
#[derive(Drop)]
pub struct Named {
    pub name: Bytes,
    pub client: Option<Client>,
}

impl Named {
    /// Puts another client under the name.
    pub fn replace(&mut self, client: Option<Client>)
        ensures { self.new ≡ record self.old { client = client } }
    {
        self.client = client;
    }
}

/// Where the first client of a name stands.
pub fn place_of(name: &[u8], clients: &[Named]) -> Option<usize>
    ensures place { result ≡ place_in name.now clients.now }
    ensures within { IfSome result (λ place. place < length clients.now) }
{
    clients.iter().position(|one| one.name.as_bytes() == name)
}
