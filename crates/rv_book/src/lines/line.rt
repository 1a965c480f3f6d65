//! Cuts an input into lines, and a line into its fields.
ghost use Rattle.std.specs.Prelude.{◌≡◌, ◌≢◌, ◌<◌, ◌∷◌, ◌++◌, [], ℕ, List, length, None, IfSome};
ghost use Rattle.std.specs.List.{All};
ghost use Rattle.rv_book.specs.lines.Lines.{BeginsWithLine, lines};
ghost use Rattle.rv_book.specs.lines.Pieces.{BehindLacking};

// How many bytes are looked at in one step.
const PIECE: usize = 16;

/// The first line and the bytes after it, or `None` if there are no bytes. A line ends before
/// an LF, which is dropped, or with the bytes.
pub fn first_line(bytes: &[u8]) -> Option<(&[u8], &[u8])>
    ensures some { IfSome result (λ p. lines bytes.now ≡ p.0.now ∷ lines p.1.now) }
    ensures cut { IfSome result (λ p. BeginsWithLine bytes.now p.0.now p.1.now) }
    ensures shorter { IfSome result (λ p. length p.1.now < length bytes.now) }
    ensures none { result ≡ None → bytes.now ≡ [] }
{
    if bytes.is_empty() {
        return None;
    }
    match cut_at(b'\n', bytes) {
        Some((line, after)) => Some((line, after)),
        None => Some((bytes, &[])),
    }
}

/// The bytes before the first one that is `byte`, and those after it; `None` if no byte is.
pub fn cut_at(byte: u8, bytes: &[u8]) -> Option<(&[u8], &[u8])>
    ensures parts { IfSome result (λ p. bytes.now ≡ p.0.now ++ byte ∷ p.1.now) }
    ensures first { IfSome result (λ p. All (λ b. b ≢ byte) p.0.now) }
    ensures none { result ≡ None → All (λ b. b ≢ byte) bytes.now }
{
    let rest = behind_pieces(byte, bytes);
    let (_, after) = cut_near(byte, rest)?;
    Some((&bytes[..bytes.len() - after.len() - 1], after))
}

/// The bytes after a text with which they begin, or `None` if they don't begin with it.
pub fn after_text<'a>(text: &[u8], bytes: &'a [u8]) -> Option<&'a [u8]>
    ensures some { IfSome result (λ rest. bytes.now ≡ text.now ++ rest.now) }
    ensures none { result ≡ None → (rest : List ℕ) → ¬ (bytes.now ≡ text.now ++ rest) }
{
    bytes.strip_prefix(text)
}

// The bytes after whole pieces in which no byte is `byte`. If a whole piece is left, it has such a byte.
fn behind_pieces(byte: u8, bytes: &[u8]) -> &[u8]
    ensures { BehindLacking byte bytes.now result.now }
{
    let mut rest = bytes;
    while let Some((piece, after)) = rest.split_first_chunk::<PIECE>() {
        if piece.contains(&byte) {
            return rest;
        }
        rest = after;
    }
    rest
}

// Cuts as `cut_at`, and looks at the bytes one by one.
fn cut_near(byte: u8, bytes: &[u8]) -> Option<(&[u8], &[u8])>
    ensures parts { IfSome result (λ p. bytes.now ≡ p.0.now ++ byte ∷ p.1.now) }
    ensures first { IfSome result (λ p. All (λ b. b ≢ byte) p.0.now) }
    ensures none { result ≡ None → All (λ b. b ≢ byte) bytes.now }
{
    let place = bytes.iter().position(|b| *b == byte)?;
    Some((&bytes[..place], &bytes[place + 1..]))
}
