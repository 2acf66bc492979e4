//! Laws of the texts of records. Each function does nothing: its contract is the law.
ghost use Rattle.std.specs.Prelude.{◌≡◌, ◌≢◌, ℕ, List, Some, Ok, Err};
ghost use Rattle.ipam_record_text.specs.Pools.{HasRefusedPool};
ghost use Rattle.ipam_records.specs.declared.fault.TextFault.{TextFault};
ghost use Rattle.ipam_records.specs.declared.fault.TextFault.TheVariants.{Form, Key as AnotherKey, Table, Unsound};
ghost use Rattle.ipam_records.specs.declared.key.Key.{Key};
ghost use Rattle.ipam_records.specs.declared.record.Record.{Record};
ghost use Rattle.ipam_records.specs.Body.{body_of};
ghost use Rattle.ipam_records.specs.Key.{key_of};
ghost use Rattle.ipam_records.specs.KeyOrder.{key_rank};
ghost use Rattle.ipam_records.specs.KeyText.{key_bytes, key_read};
ghost use Rattle.ipam_records.specs.RecordReading.{record_reading, SaysAnotherKey, SaysBlock};
ghost use Rattle.ipam_records.specs.Sound.{IsRecord};

/// Each sound record is read from its key's text and its body.
pub fn each_sound_record_is_read_from_its_texts()
    ensures { (r : Record) → IsRecord r → record_reading (key_bytes (key_of r)) (body_of r) ≡ Ok r }
{}

/// What is read is sound, and has these texts.
pub fn what_is_read_is_sound_and_has_these_texts()
    ensures sound { (key body : List ℕ) (r : Record) → record_reading key body ≡ Ok r → IsRecord r }
    ensures key { (key body : List ℕ) (r : Record) → record_reading key body ≡ Ok r
        → key_bytes (key_of r) ≡ key }
    ensures body { (key body : List ℕ) (r : Record) → record_reading key body ≡ Ok r
        → body ≡ body_of r }
{}

/// No sound record with these texts is refused, and what each fault means.
pub fn what_is_refused_is_of_no_sound_record()
    ensures exact { (key body : List ℕ) (e : TextFault) → record_reading key body ≡ Err e
        → (r : Record) → IsRecord r → key_bytes (key_of r) ≡ key → body ≢ body_of r }
    ensures form { (key body : List ℕ) → record_reading key body ≡ Err Form
        → (named : Key) → key_read key ≡ Some named
        → (r : Record) → IsRecord r → key_rank (key_of r) ≡ key_rank named → body ≢ body_of r }
    ensures another_key { (key body : List ℕ) → record_reading key body ≡ Err AnotherKey
        → SaysAnotherKey key body }
    ensures table { (key body : List ℕ) → record_reading key body ≡ Err Table
        → HasRefusedPool body }
    ensures unsound { (key body : List ℕ) → record_reading key body ≡ Err Unsound
        → SaysBlock key body }
{}

/// No two sound records have one text of their keys and one body.
pub fn each_sound_record_has_texts_of_its_own()
    ensures { (r s : Record) → IsRecord r → IsRecord s → key_bytes (key_of r) ≡ key_bytes (key_of s)
        → body_of r ≡ body_of s → r ≡ s }
{}
