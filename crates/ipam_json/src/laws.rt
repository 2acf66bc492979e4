//! Laws of canonical JSON. Each function does nothing: its contract is the law.
ghost use Rattle.std.specs.Prelude.{◌≡◌, ℕ, ◌^◌, ◌<◌, List, [], ◌∷◌, ◌++◌, map, slice_get, false, Some, IsUtf8, Bool, length, decimal, String, string_cmp, option_and_then};
ghost use Rattle.std.specs.declared.alloc.Global.{Global};
ghost use Rattle.std.specs.List.Sorted.{IsStrictlySortedBy};
ghost use Rattle.std.specs.Map.{keys_of};
ghost use Rattle.std.specs.List.{AllByRecursion};
ghost use Rattle.serde_json.specs.Data.{Data, Members, null, boolean, number, unsigned, string, object, put};
ghost use Rattle.serde_json.specs.Find.{get, get_item};
ghost use Rattle.serde_json.specs.Read.{read};
ghost use Rattle.serde_json.specs.View.{view, items_of, items_view, members_view};
ghost use Rattle.serde_json.specs.Written.{compact_text, has_float};
ghost use Rattle.serde_json.specs.declared.value.Value.{Value};
ghost use Rattle.ipam_json.specs.Built.{Field, Count, array_of, members_from, object_of, items_in, members_in, item_list, member_list, fields_of, names, IsAscending, counts_object, counts_in};
ghost use Rattle.ipam_json.specs.Canonical.{IsCanonical, IsCanonicalWithin, ShowsItsEnd, HasTexts};
ghost use Rattle.ipam_json.specs.Path.{at_path, step, index_of, has_dot};

/// The compact text of canonical data reads back as the data.
pub fn canonical_json_reads_back()
    ensures { (d : Data) → IsCanonical d → read (compact_text d) ≡ Some d }
{}

/// No two canonical values have one text.
pub fn canonical_json_has_one_text()
    ensures { (d e : Data) → IsCanonical d → IsCanonical e
        → compact_text d ≡ compact_text e → d ≡ e }
{}

/// No text of a canonical value but a number goes on to the text of another one.
pub fn canonical_json_is_prefix_free()
    ensures { (d e : Data) (rest others : List ℕ) → IsCanonical d → IsCanonical e
        → ShowsItsEnd d → compact_text d ++ rest ≡ compact_text e ++ others
        → (d ≡ e) × (rest ≡ others) }
{}

/// The compact text of canonical data is UTF-8 where its strings and names are.
pub fn canonical_json_is_utf8()
    ensures { (d : Data) → IsCanonical d → HasTexts d → IsUtf8 (compact_text d) }
{}

/// Canonical data has no float, so that `Value::to_string` writes its compact text.
pub fn canonical_json_has_no_float()
    ensures { (d : Data) → IsCanonical d → has_float d ≡ false }
{}

/// An array or an object of canonical parts is canonical, one level deeper than they.
pub fn canonical_parts_build_canonical_json()
    ensures null { (levels : ℕ) → IsCanonicalWithin levels null }
    ensures boolean { (levels : ℕ) (b : Bool) → IsCanonicalWithin levels (boolean b) }
    ensures number { (levels n : ℕ) → n < 2 ^ 64
        → IsCanonicalWithin levels (number (unsigned n)) }
    ensures string { (levels : ℕ) (s : List ℕ) → IsCanonicalWithin levels (string s) }
    ensures array { (levels more : ℕ) (ds : List Data) → levels < more
        → AllByRecursion (IsCanonicalWithin levels) ds → IsCanonicalWithin more (array_of ds) }
    ensures object { (levels more : ℕ) (ms : List Field) → levels < more
        → IsAscending (names ms) → AllByRecursion (λ m. IsCanonicalWithin levels m.1) ms
        → IsCanonicalWithin more (object_of ms) }
    ensures put { (levels more : ℕ) (k : List ℕ) (d : Data) (ms : Members) → levels < more
        → IsCanonicalWithin levels d → IsCanonicalWithin more (object ms)
        → IsCanonicalWithin more (object (put k d ms)) }
    ensures counts { (levels : ℕ) (cs : List Count) → 0 < levels
        → IsAscending (names cs) → AllByRecursion (λ c. c.1 < 2 ^ 64) cs
        → IsCanonicalWithin levels (counts_object cs) }
{}

/// What an array, an object or a map of counts was built of is read from it again.
pub fn built_json_gives_its_parts_back()
    ensures items { (ds : List Data) → items_in (array_of ds) ≡ Some ds }
    ensures item { (ds : List Data) (i : ℕ) → get_item i (items_of ds) ≡ slice_get ds i }
    ensures members { (ms : List Field) → members_in (object_of ms) ≡ Some ms }
    ensures member { (ms : List Field) → IsAscending (names ms)
        → (i : ℕ) (m : Field) → slice_get ms i ≡ Some m → get m.0 (object_of ms) ≡ Some m.1 }
    ensures counts { (cs : List Count) → counts_in (counts_object cs) ≡ Some cs }
    ensures counts_text { (cs : List Count) → IsAscending (names cs)
        → AllByRecursion (λ c. c.1 < 2 ^ 64) cs
        → option_and_then counts_in (read (compact_text (counts_object cs))) ≡ Some cs }
{}

/// A member whose name comes after all the others goes last, and an item that is pushed too.
pub fn members_put_in_order_stand_in_order()
    ensures put { (ms : List Field) (k : List ℕ) (d : Data)
        → IsAscending (names (ms ++ (k, d) ∷ []))
        → put k d (members_from ms) ≡ members_from (ms ++ (k, d) ∷ []) }
    ensures push { (vs : List Value) (v : Value)
        → items_view (vs ++ v ∷ []) ≡ items_of (map view vs ++ view v ∷ []) }
{}

/// What the items of an array and the entries of a `Map` stand for, in order. A `Map`'s entries
/// ascend by their keys.
pub fn parts_of_values_are_listed()
    ensures items { (vs : List Value) → item_list (items_view vs) ≡ map view vs }
    ensures members { (es : List (String Global × Value))
        → member_list (members_view es) ≡ fields_of es }
    ensures ascending { (es : List (String Global × Value))
        → IsStrictlySortedBy string_cmp (keys_of es) → IsAscending (names (fields_of es)) }
{}

/// A path is followed name by name, and a number in decimal names the item of that index.
pub fn paths_are_followed_name_by_name()
    ensures one { (name : List ℕ) (d : Data) → 0 < length name → has_dot name ≡ false
        → at_path name d ≡ step name d }
    ensures more { (name rest : List ℕ) (d : Data) → has_dot name ≡ false → 0 < length rest
        → at_path (name ++ 46 ∷ rest) d ≡ option_and_then (at_path rest) (step name d) }
    ensures index { (n : ℕ) → n < 2 ^ 64 → index_of (decimal n) ≡ Some n }
    ensures plain_index { (n : ℕ) → n < 2 ^ 64 → has_dot (decimal n) ≡ false }
{}
