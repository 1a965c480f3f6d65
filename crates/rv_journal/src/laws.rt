//! Laws of a journal over its definitions.
ghost use Rattle.std.specs.Prelude.{◌≡◌, ◌++◌, ℕ, take};
ghost use Rattle.rv_journal.specs.Text.{whole_lines, stored_lines, HasFront, IsLines};

/// In a file that a crash left while a piece was added, opening finds all lines that stood, and after them
/// lines of the piece.
pub fn lines_are_found(text: &[u8], piece: &[u8], file: &[u8])
    requires lines { IsLines text.now }
    requires left { HasFront text.now piece.now file.now }
    ensures { (n : ℕ) × (stored_lines file.now ≡ text.now ++ whole_lines (take n piece.now)) }
{}
