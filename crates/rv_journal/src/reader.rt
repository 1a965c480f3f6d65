//! Who takes the lines of a journal that is opened.
ghost use Rattle.std.specs.Prelude.{◌≡◌, [], ◌++◌, ⊤, List, ℕ, IfErr, IfOk, OnOk};
ghost use Rattle.std.proofs.Common.{◌∙◌, ap, sym, append_assoc};
ghost use Rattle.std.proofs.lemmas.List.{append-nil};
ghost use Rattle.rv_journal.specs.Text.{IsLines};

use std::alloc::AllocError;

/// Who takes the lines of a journal that is opened, in order, some at a time, and makes something of them.
pub trait JournalReader: Drop {
    /// Why it refuses lines.
    type Fault;

    /// What it makes of all lines.
    type Made: Drop;

    /// From the first state these lines lead to the second.
    ghost takes: { Self → List ℕ → Self → Type 0 };

    /// In this state it refuses these lines for this reason.
    ghost refuses: { Self → List ℕ → Self.Fault → Type 0 };

    /// If no more lines come, it makes this of those that led to this state.
    ghost makes: { Self → Self.Made → Type 0 };

    /// And if it makes nothing of them, then for this reason.
    ghost lacks: { Self → Self.Fault → Type 0 };

    /// Takes whole lines, or none: those after what it took before.
    fn take(&mut self, lines: &[u8]) -> Result<(), Self::Fault>
        requires { IsLines lines.now }
        ensures taken { OnOk result (takes self.old lines.now self.new) }
        ensures refused { IfErr result (λ why. refuses self.old lines.now why) };

    /// What it makes of the lines that it took. It may refuse them, as too few.
    fn finish(self) -> Result<Self::Made, Self::Fault>
        ensures made { IfOk result (makes self) }
        ensures lacking { IfErr result (lacks self) };

    /// No lines lead nowhere.
    ghost none: { (reader : Self) → takes reader [] reader };

    /// Lines may come one after the other.
    ghost joined: { (old mid new : Self) (lines more : List ℕ) → IsLines lines → takes old lines mid
        → takes mid more new → takes old (lines ++ more) new };

    /// And so if the later ones are refused.
    ghost refused_on: { (old mid : Self) (lines more : List ℕ) (why : Self.Fault) → IsLines lines
        → takes old lines mid → refuses mid more why → refuses old (lines ++ more) why };
}

/// A vector keeps the lines after what it has.
impl JournalReader for Vec<u8> {
    type Fault = AllocError;

    type Made = Vec<u8>;

    ghost takes = { λ old lines new. new.items ≡ old.items ++ lines };

    ghost refuses = { λ _ _ _. ⊤ };

    ghost makes = { λ reader lines. lines ≡ reader };

    ghost lacks = { λ _ _. ⊥ };

    fn take(&mut self, lines: &[u8]) -> Result<(), AllocError> {
        self.extend_from_slice(lines)
    }

    fn finish(self) -> Result<Vec<u8>, AllocError> {
        Ok(self)
    }

    ghost none = { λ reader. sym (append-nil reader.items) };

    ghost joined = { λ old mid new lines more _ first second.
        second ∙ ap (λ (l : List ℕ). l ++ more) first ∙ append_assoc old.items lines more };

    ghost refused_on = { λ _ _ _ _ _ _ _ _. tt };
}
