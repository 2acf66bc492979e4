ghost use Rattle.std.specs.Prelude.{◌≡◌, ◌↔◌, ℕ, List, Some, IsTrue};
ghost use Rattle.std.specs.List.{list_any};
ghost use Rattle.ipam_select.specs.Formula.{Formula};
ghost use Rattle.ipam_select.specs.Admitting.{same};
ghost use Rattle.ipam_select.specs.Grammar.{Reads, ascending};
ghost use Rattle.ipam_select.specs.Reading.{reading};
ghost use Rattle.ipam_select.specs.Printing.{printed};
ghost use Rattle.ipam_select.specs.Sound.{is_sound, ascends};

/// What the reading function finds is exactly what the grammar says, so a text has one reading
/// at most. What is printed of a formula that any text is read as is read as it, and so is what is
/// printed of a sound one. The values of `in` ascend and differ, and are those of the text.
pub fn readings()
    ensures exact { (text : List ℕ) (f : Formula) → (reading text ≡ Some f) ↔ Reads text f }
    ensures printed { (text : List ℕ) (f : Formula) → Reads text f → reading (printed f) ≡ Some f }
    ensures values { (vs : List (List ℕ)) → IsTrue (ascends (ascending vs)) }
    ensures same_values { (v : List ℕ) (vs : List (List ℕ)) → list_any (same v) (ascending vs) ≡ list_any (same v) vs }
    ensures sound { (f : Formula) → IsTrue (is_sound f) → reading (printed f) ≡ Some f }
{}
