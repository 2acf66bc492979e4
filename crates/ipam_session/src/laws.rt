//! Laws of the definitions. Each function does nothing: its contract is the law.
ghost use Rattle.std.specs.Prelude.{◌≡◌, ℕ, List, Some, None, ◌↔◌, ◌⊎◌, IsTrue, IsSome, true, false};
ghost use Rattle.ipam_model.specs.declared.answer.Answer.{Answer as Found};
ghost use Rattle.ipam_session.specs.declared.refusal.Refusal.TheVariants.{Waiting, NotWaiting, TooSoon, Line};
ghost use Rattle.ipam_session.specs.Lines.{Standing as Stands, AnswersWish, refused, reply_to_line, begins, feeds, stops};
ghost use Rattle.ipam_session.specs.Wishes.{wish_of_line};

/// A line is refused for one of four causes, and each of them refuses it.
#[tactic(auto, using(crate::proofs::Refused::line_refused, crate::proofs::Refused::waiting_refused, crate::proofs::Refused::idle_refused, crate::proofs::Refused::soon_refused))]
pub fn lines_are_refused_for_their_causes()
    ensures line { (line : List ℕ) (s : Stands) → (reply_to_line line s ≡ refused Line)
        ↔ (wish_of_line line ≡ None) }
    ensures waiting { (line : List ℕ) (s : Stands) → (reply_to_line line s ≡ refused Waiting)
        ↔ (IsTrue (begins (wish_of_line line)) × IsTrue s.waited) }
    ensures not_waiting { (line : List ℕ) (s : Stands) → (reply_to_line line s ≡ refused NotWaiting)
        ↔ ((IsTrue (feeds (wish_of_line line)) ⊎ IsTrue (stops (wish_of_line line)))
        × (s.waited ≡ false)) }
    ensures too_soon { (line : List ℕ) (s : Stands) → (reply_to_line line s ≡ refused TooSoon)
        ↔ (IsTrue (feeds (wish_of_line line)) × IsTrue s.waited × IsTrue s.too_soon) }
{}

/// Each line has a reply once the request that it began or fed has its answer.
#[tactic(auto, using(crate::proofs::Replied::answered_line))]
pub fn answered_lines_have_a_reply()
    ensures { (line : List ℕ) (s : Stands) (found : Found) → s.answer ≡ Some found
        → AnswersWish (wish_of_line line) found → IsSome (reply_to_line line s) }
{}
