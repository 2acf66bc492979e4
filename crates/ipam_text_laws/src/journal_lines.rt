//! Journals and sessions are read line by line in one way. Each function does nothing: its contract is
//! the law.
ghost use Rattle.std.specs.Prelude.{◌≡◌, ℕ, ◌<◌, ◌^◌, List, ◌++◌, map};
ghost use Rattle.std.specs.List.{AllByRecursion, concat};
ghost use Rattle.serde_json.specs.Data.{Data};
ghost use Rattle.serde_json.specs.Written.{compact_text};
ghost use Rattle.ipam_io.specs.Feeds.{HasNoFeed};
ghost use Rattle.ipam_records.specs.Sound.{IsDatastore, IsHandleId};
ghost use Rattle.ipam_model.specs.declared.entry.Called.{Called};
ghost use Rattle.ipam_model.specs.declared.entry.CallName.{CallName};
ghost use Rattle.ipam_model.specs.declared.entry.Entry.{Entry};
ghost use Rattle.ipam_model.specs.declared.entry.Told.{Told};
ghost use Rattle.ipam_model.specs.declared.request.Request.{Request};
ghost use Rattle.ipam_model.specs.Consistent.{IsWithinLimits};
ghost use Rattle.ipam_model.specs.Course.{slot_count};
ghost use Rattle.ipam_model.specs.SoundRequest.{IsSoundRequest};
ghost use Rattle.ipam_model.specs.History.{Base, Lawful, slot_of_entry};
ghost use Rattle.ipam_answer_text.specs.Entries.{began_line, call_text, called_line, entry_line, fed_line, told_text};
ghost use Rattle.ipam_text_laws.specs.Entries.{HasTime};
ghost use Rattle.ipam_text_laws.specs.Limits.{IsSoundName, IsSoundTold};
ghost use Rattle.ipam_session.specs.declared.replies.Reply.{Reply};
ghost use Rattle.ipam_session.specs.Replies.{reply_line};
ghost use Rattle.ipam_text_laws.specs.Journals.{AreToldAlike, CallsAgree, journal_of, kind_word, lines_of};
ghost use Rattle.ipam_text_laws.specs.Names.{HasNames, IsAboutName};
ghost use Rattle.ipam_text_laws.specs.Whole.{IsWholeLine};

/// No compact text of JSON has a line feed, whatever its strings hold.
#[tactic(auto, using(crate::proofs::PlainJson::compact_has_none))]
pub fn compact_json_has_no_line_feed()
    ensures { (d : Data) → HasNoFeed (compact_text d) }
{}

/// Where two texts begin by whole lines, the lines are the same, and so is what follows.
#[tactic(auto, using(crate::proofs::WholeLines::cut_lines))]
pub fn whole_lines_are_cut_in_one_way()
    ensures { (one other rest others : List ℕ) → IsWholeLine one → IsWholeLine other
        → one ++ rest ≡ other ++ others → (one ≡ other) × (rest ≡ others) }
{}

/// Each entry is written as a whole line, where what its call is about has a name.
#[tactic(auto, using(crate::proofs::EntryLines::entry_whole))]
pub fn each_entry_is_a_whole_line()
    ensures { (one : Entry) → HasNames one → IsWholeLine (entry_line one) }
{}

/// No entry's line goes on to another's: where two texts begin by lines of entries, the lines are the
/// same, and so is what follows.
#[tactic(auto, using(crate::proofs::EntryLines::entries_cut))]
pub fn lines_of_entries_are_cut_in_one_way()
    ensures { (one other : Entry) (rest others : List ℕ) → HasNames one → HasNames other
        → entry_line one ++ rest ≡ entry_line other ++ others
        → (entry_line one ≡ entry_line other) × (rest ≡ others) }
{}

/// Two journals of one text have the same lines, in the same order.
#[tactic(auto, using(crate::proofs::EntryLines::same_journals))]
pub fn journals_of_one_text_have_the_same_lines()
    ensures { (entries others : List Entry) → AllByRecursion HasNames entries
        → AllByRecursion HasNames others
        → concat (map entry_line entries) ≡ concat (map entry_line others)
        → map entry_line entries ≡ map entry_line others }
{}

/// Over a sound datastore, each call of a lawful history is about a key whose node or handle is named.
#[tactic(auto, using(crate::proofs::NamedHistories::history_named))]
pub fn each_entry_of_a_lawful_history_has_names()
    ensures { (base : Base) (history : List Entry) → IsDatastore base.store → Lawful base history
        → AllByRecursion HasNames history }
{}

/// Each entry of a lawful history is a whole line, and two lawful histories whose journals are one text
/// have the same lines.
#[tactic(auto, using(crate::proofs::Journals::history_whole, crate::proofs::Journals::same_histories))]
pub fn the_journal_of_a_lawful_history_is_read_in_one_way()
    ensures lines { (base : Base) (history : List Entry) → IsDatastore base.store
        → Lawful base history → AllByRecursion IsWholeLine (lines_of history) }
    ensures one_way { (base other : Base) (history further : List Entry) → IsDatastore base.store
        → IsDatastore other.store → Lawful base history → Lawful other further
        → journal_of history ≡ journal_of further → lines_of history ≡ lines_of further }
{}

/// Each reply of a session is a whole line, so replies are read line by line in one way.
#[tactic(auto, using(crate::proofs::Journals::reply_whole, crate::proofs::Journals::replies_cut, crate::proofs::Journals::same_replies))]
pub fn replies_are_read_line_by_line_in_one_way()
    ensures whole { (one : Reply) → IsWholeLine (reply_line one) }
    ensures next { (one other : Reply) (rest others : List ℕ)
        → reply_line one ++ rest ≡ reply_line other ++ others
        → (reply_line one ≡ reply_line other) × (rest ≡ others) }
    ensures same { (replies others : List Reply)
        → concat (map reply_line replies) ≡ concat (map reply_line others)
        → map reply_line replies ≡ map reply_line others }
{}

/// The line of an entry tells its slot and its kind, and of a call the texts of its name, its reply, the
/// record that it wrote and the answer that it gave, its fate, and whether it wrote and was answered.
#[tactic(auto, using(crate::proofs::EntriesTold::slot_told, crate::proofs::EntriesTold::kind_told))]
pub fn the_line_of_an_entry_tells_what_happened()
    ensures slot { (one other : Entry) → slot_of_entry one < slot_count
        → slot_of_entry other < slot_count → entry_line one ≡ entry_line other
        → slot_of_entry one ≡ slot_of_entry other }
    ensures kind { (one other : Entry) → entry_line one ≡ entry_line other
        → kind_word one ≡ kind_word other }
    ensures call { (c d : Called) → IsAboutName c.call → IsAboutName d.call
        → called_line c ≡ called_line d → CallsAgree c d }
{}

/// Where its parts are sound, the line of a request that begins tells the request, and that of a second
/// list its time and its handles. The texts of a call's name and of its reply tell the name and the
/// reply.
#[tactic(auto, using(crate::proofs::EntriesRead::began_told, crate::proofs::EntriesRead::fed_told, crate::proofs::EntriesRead::name_told, crate::proofs::EntriesRead::reply_told))]
pub fn the_parts_of_an_entry_are_told_by_its_line()
    ensures began { (slot other : ℕ) (request further : Request) → IsSoundRequest request
        → IsSoundRequest further → began_line slot request ≡ began_line other further
        → request ≡ further }
    ensures fed { (slot other at later : ℕ) (live further : List (List ℕ)) → at < 2 ^ 64
        → later < 2 ^ 64 → AllByRecursion IsHandleId live → AllByRecursion IsHandleId further
        → fed_line slot at live ≡ fed_line other later further → (at ≡ later) × (live ≡ further) }
    ensures name { (c d : CallName) → IsSoundName c → IsSoundName d → call_text c ≡ call_text d
        → c ≡ d }
    ensures reply { (t u : Told) → IsSoundTold t → IsSoundTold u → told_text t ≡ told_text u
        → t ≡ u }
{}

/// Two lawful histories whose journals are one text have as many entries, and entry by entry the same
/// slots and kinds, and calls that have the same fates, and in their texts the same names, replies,
/// records and answers.
pub fn histories_of_one_journal_are_told_alike()
    ensures { (base other : Base) (history further : List Entry) → IsDatastore base.store
        → IsDatastore other.store → Lawful base history → Lawful other further
        → journal_of history ≡ journal_of further → AreToldAlike history further }
{}

/// Two lawful histories whose journals are one text are the same entries, where the datastores that they
/// begin with are sound and within their limits, and the times of their second lists fit 64 bits.
#[tactic(auto, using(crate::proofs::SameEntries::histories_same))]
pub fn histories_of_one_journal_are_the_same_entries()
    ensures { (base other : Base) (history further : List Entry) → IsDatastore base.store
        → IsWithinLimits base.store → IsDatastore other.store → IsWithinLimits other.store
        → Lawful base history → Lawful other further → AllByRecursion HasTime history
        → AllByRecursion HasTime further → journal_of history ≡ journal_of further
        → history ≡ further }
{}
