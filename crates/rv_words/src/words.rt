//! Words that begin with the name of a command that reads its own.
ghost use Rattle.std.specs.Prelude.{◌≡◌, ◌∷◌, codes, IfSome, List, None};
ghost use Rattle.clap.specs.Words.{Text};
ghost use Rattle.clap.specs.Walk.{texts};
ghost use Rattle.rv_words.specs.Beginning.{BeginWithout};

/// The words from `host` on, if that is the word after the program's name.
pub fn words_of_host<'a>(words: &'a [&'a str]) -> Option<&'a [&'a str]>
    ensures some { IfSome result (λ own. (name : Text) × (rest : List Text)
        × (texts words.entry.now ≡ name ∷ codes "host" ∷ rest) × (texts own.now ≡ codes "host" ∷ rest)) }
    ensures none { result ≡ None → BeginWithout (codes "host") (texts words.entry.now) }
{
    words_from("host", words)
}

/// The words from a command on, if that is the word after the program's name.
pub(crate) fn words_from<'a>(command: &str, words: &'a [&'a str]) -> Option<&'a [&'a str]>
    ensures some { IfSome result (λ own. (name : Text) × (rest : List Text)
        × (texts words.entry.now ≡ name ∷ command.now ∷ rest) × (texts own.now ≡ command.now ∷ rest)) }
    ensures none { result ≡ None → BeginWithout command.now (texts words.entry.now) }
{
    if words.len() > 1 && words[1] == command {
        Some(&words[1..])
    } else {
        None
    }
}
