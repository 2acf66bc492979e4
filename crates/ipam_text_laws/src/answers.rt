//! What the texts of answers and of records tell. Each function does nothing: its contract is the law.
ghost use Rattle.std.specs.Prelude.{◌≡◌, List};
ghost use Rattle.std.specs.List.{AllByRecursion};
ghost use Rattle.ipam_records.specs.declared.record.Record.{Record};
ghost use Rattle.ipam_records.specs.Body.{body_of};
ghost use Rattle.ipam_records.specs.Key.{key_of};
ghost use Rattle.ipam_records.specs.Sound.{IsDatastore, IsRecord};
ghost use Rattle.ipam_model.specs.declared.answer.Answer.{Answer};
ghost use Rattle.ipam_model.specs.declared.entry.Entry.{Entry};
ghost use Rattle.ipam_model.specs.Consistent.{IsWithinLimits};
ghost use Rattle.ipam_model.specs.History.{Base, Lawful};
ghost use Rattle.ipam_answer_text.specs.Answers.{answer_text};
ghost use Rattle.ipam_text_laws.specs.Answers.{IsSoundAnswer};
ghost use Rattle.ipam_text_laws.specs.Entries.{HasSoundName, HasTime, IsSoundEntry};

/// No two sound answers have one text.
#[tactic(auto, using(crate::proofs::AnswerTexts::answer_told))]
pub fn each_sound_answer_has_a_text_of_its_own()
    ensures { (a b : Answer) → IsSoundAnswer a → IsSoundAnswer b → answer_text a ≡ answer_text b
        → a ≡ b }
{}

/// No two sound records of one key have one body.
#[tactic(auto, using(crate::proofs::RecordBodies::record_told))]
pub fn each_sound_record_of_a_key_has_a_body_of_its_own()
    ensures { (r s : Record) → IsRecord r → IsRecord s → key_of r ≡ key_of s
        → body_of r ≡ body_of s → r ≡ s }
{}

/// Over a sound datastore, each call of a lawful history is about a sound key, and a revision that it names
/// fits 64 bits.
#[tactic(auto, using(crate::proofs::SoundEntries::history_named))]
pub fn each_call_of_a_lawful_history_has_a_sound_name()
    ensures { (base : Base) (history : List Entry) → IsDatastore base.store → Lawful base history
        → AllByRecursion HasSoundName history }
{}

/// Over a sound datastore within its limits, each entry of a lawful history is sound, where the times
/// of its second lists fit 64 bits: the requests, the names of the calls, their replies, the records
/// that they wrote, each of the key that its call names, and the answers.
#[tactic(auto, using(crate::proofs::SoundEntries::history_sound))]
pub fn each_entry_of_a_lawful_history_is_sound()
    ensures { (base : Base) (history : List Entry) → IsDatastore base.store
        → IsWithinLimits base.store → Lawful base history → AllByRecursion HasTime history
        → AllByRecursion IsSoundEntry history }
{}
