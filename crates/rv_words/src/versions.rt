//! Reads the words of `rv version`, and has the text that answers them.
ghost use Rattle.std.specs.Prelude.{◌≡◌, ◌↔◌, IfOk, IsTrue, string_bytes};
ghost use Rattle.clap.specs.Walk.{texts};
ghost use Rattle.rv_words.specs.Versions.{AsksVersion, version_words};

use crate::options::VERSION;
use std::alloc::{AllocError, Global};

/// Whether the words are `rv version`, and no more. The first word is the program's name.
pub fn asks_version(words: &[&str]) -> bool
    ensures { IsTrue result ↔ AsksVersion (texts words.now) }
{
    match words {
        [_, "version"] => true,
        _ => false,
    }
}

/// The program's name and its version.
pub fn version_text(alloc: Global) -> Result<String, AllocError>
    ensures { IfOk result (λ text. string_bytes text ≡ version_words) }
{
    format!(in alloc; "rv {VERSION}")
}
