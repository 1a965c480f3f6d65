//! The versions of messages; a session has one of them.
ghost use Rattle.std.specs.Prelude.{◌≡◌, length};
ghost use Rattle.rv_text.specs.Versions.{number_of_version, version_of};
ghost use Rattle.rv_text.specs.Rows.{version_row};

/// How much a session's replies say. The hello that opens the session asks for it.
#[derive(Clone, Copy, Debug, PartialEq, Eq)]
pub enum Version {
    /// Version 1, for a hello that names none: the reply of a transfer that was met says that its item was
    /// received.
    One,
    /// Version 2: the reply of a transfer that was met has the key of the request that received its item.
    Two,
}

impl Version {
    /// The version with this number, 1 or 2.
    pub fn of_number(number: u64) -> Option<Version>
        ensures { result ≡ version_of number }
    {
        match number {
            1 => Some(Version::One),
            2 => Some(Version::Two),
            _ => None,
        }
    }

    /// Its number.
    pub fn number(self) -> u64
        ensures { result ≡ number_of_version self }
    {
        match self {
            Version::One => 1,
            Version::Two => 2,
        }
    }

    // How many members it has in a body.
    pub(crate) fn member_count(self) -> usize
        ensures { result ≡ length (version_row self) }
    {
        match self {
            Version::One => 0,
            Version::Two => 1,
        }
    }
}
