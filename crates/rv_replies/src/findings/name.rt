//! A key, as it is looked up.
ghost use Rattle.std.specs.Prelude.{◌≡◌};
ghost use Rattle.rv_replies.specs.findings.Names.{key_name};

use rv_text::Key;

/// A key, as it is looked up in a hash table.
#[derive(Clone, Copy, PartialEq, Eq, Hash)]
pub struct Name {
    /// The key's epoch.
    pub epoch: u64,
    /// Its client.
    pub client: u64,
    /// Its client's incarnation.
    pub incarnation: u64,
    /// Its number.
    pub number: u64,
}

impl Name {
    /// The name of a key.
    pub fn of(key: &Key) -> Name
        ensures { result ≡ key_name key.now }
    {
        Name {
            epoch: key.epoch,
            client: key.client,
            incarnation: key.incarnation,
            number: key.number,
        }
    }
}
