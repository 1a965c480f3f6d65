//! What a line of a checkpoint says, by its first word.
ghost use Rattle.std.specs.Prelude.{◌≡◌, ◌≢◌, ◌++◌, ℕ, List, None, IfSome};
ghost use Rattle.rv_checkpoint.specs.Kinds.{initial_of, word_before};

use rv_book::lines::after_text;

/// What a line after the first says, by its word.
#[derive(Clone, Copy)]
pub(crate) enum LineKind {
    /// An item lies at an open place.
    Lies,
    /// A request waits at an open place.
    Waits,
    /// A client's session asked nothing yet.
    Fresh,
    /// The last request of a session waits.
    Asks,
    /// It has its reply.
    Replied,
    /// It was cancelled before it came.
    Unseen,
    /// The checkpoint ends here.
    End,
}

impl LineKind {
    // The kind whose word begins with this byte.
    fn of_initial(byte: u8) -> Option<LineKind>
        ensures some { IfSome result (λ kind. initial_of kind ≡ byte) }
        ensures none { result ≡ None → (kind : LineKind) → initial_of kind ≢ byte }
    {
        match byte {
            b'l' => Some(LineKind::Lies),
            b'w' => Some(LineKind::Waits),
            b'f' => Some(LineKind::Fresh),
            b'a' => Some(LineKind::Asks),
            b'r' => Some(LineKind::Replied),
            b'u' => Some(LineKind::Unseen),
            b'e' => Some(LineKind::End),
            _ => None,
        }
    }

    // Its word, and the space after that.
    fn word(self) -> &'static [u8]
        ensures { result.now ≡ word_before self }
    {
        match self {
            LineKind::Lies => b"lies ",
            LineKind::Waits => b"waits ",
            LineKind::Fresh => b"fresh ",
            LineKind::Asks => b"asks ",
            LineKind::Replied => b"replied ",
            LineKind::Unseen => b"unseen ",
            LineKind::End => b"end ",
        }
    }
}

// The kind of a line, and its fields: all after its word.
pub(crate) fn cut_kind(line: &[u8]) -> Option<(LineKind, &[u8])>
    ensures some { IfSome result (λ p. line.now ≡ word_before p.0 ++ p.1.now) }
    ensures none { result ≡ None → (kind : LineKind) (fields : List ℕ)
        → ¬ (line.now ≡ word_before kind ++ fields) }
{
    let kind = LineKind::of_initial(*line.first()?)?;
    let fields = after_text(kind.word(), line)?;
    Some((kind, fields))
}
