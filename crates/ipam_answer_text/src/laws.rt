//! Laws of scripts. Each function does nothing: its contract is the law.
ghost use Rattle.std.specs.Prelude.{◌≡◌, ◌≤◌, ℕ, List, [], ◌∷◌, ◌++◌, length, false, ◌+◌};
ghost use Rattle.std.specs.List.{list_any, slice_split};
ghost use Rattle.ipam_answer_text.specs.Lines.{is_line_end, lines_of, placed, told_line, without_empty_end};

/// An empty script has no line. A script that begins with a line and its end has that line first,
/// and after it those of the rest. A script without a line end is one line.
pub fn scripts_are_cut_at_line_ends()
    ensures empty { lines_of [] ≡ [] }
    ensures more { (line rest : List ℕ) → list_any is_line_end line ≡ false
        → lines_of (line ++ 10 ∷ rest) ≡ told_line 0 line
        ∷ placed (length line + 1) (without_empty_end (slice_split is_line_end rest)) }
    ensures last { (byte : ℕ) (line : List ℕ) → list_any is_line_end (byte ∷ line) ≡ false
        → lines_of (byte ∷ line) ≡ told_line 0 (byte ∷ line) ∷ [] }
{}
