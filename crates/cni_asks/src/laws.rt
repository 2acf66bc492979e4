//! Laws of the definitions. Each function does nothing: its contract is the law.
ghost use Rattle.std.specs.Prelude.{◌≡◌, ◌↔◌, IsTrue, IsSome, Some};
ghost use Rattle.ipam_model.specs.declared.answer.Answer.{Answer as Found};
ghost use Rattle.ipam_model.specs.declared.request.Request.{Request as Asked};
ghost use Rattle.ipam_model.specs.CanAnswer.{CanAnswer};
ghost use Rattle.cni_asks.specs.declared.replies.CniReply.{CniReply as Reply};
ghost use Rattle.cni_asks.specs.Replying.{is_of_container, cni_reply_of, reply_status, is_success};
ghost use Rattle.cni_asks.specs.GcReplying.{CanAnswerGc, CanAnswerStatus, gc_reply_of, status_reply_of};

/// Each answer that the request of a container can have has a reply, so it has one status and one
/// text.
#[tactic(auto, using(crate::proofs::AllReplies::each_has_one))]
pub fn each_answer_has_a_reply()
    ensures { (asked : Asked) (found : Found) → IsTrue (is_of_container asked)
        → CanAnswer asked found → IsSome (cni_reply_of asked found) }
{}

/// The status is 0 exactly where addresses were given, where the handle holds nothing any more,
/// or where it holds all that was asked about.
#[tactic(auto, using(crate::proofs::AllReplies::success_told))]
pub fn success_is_told_of_success_alone()
    ensures { (asked : Asked) (found : Found) (reply : Reply) → cni_reply_of asked found ≡ Some reply
        → (reply_status reply ≡ 0) ↔ IsTrue (is_success found) }
{}

/// Each answer that a collection or a probe can have has a reply, so it has one status and one
/// text.
#[tactic(auto, using(crate::proofs::GcReplies::gc_has_one, crate::proofs::GcReplies::status_has_one))]
pub fn each_collection_and_probe_has_a_reply()
    ensures gc { (found : Found) → CanAnswerGc found → IsSome (gc_reply_of found) }
    ensures status { (found : Found) → CanAnswerStatus found → IsSome (status_reply_of found) }
{}

/// The status is 0 exactly where the collection was made, and exactly where an address of each
/// wanted family could be given.
#[tactic(auto, using(crate::proofs::GcReplies::gc_success_told, crate::proofs::GcReplies::status_success_told))]
pub fn gc_and_status_tell_success_alone()
    ensures gc { (found : Found) (reply : Reply) → gc_reply_of found ≡ Some reply
        → (reply_status reply ≡ 0) ↔ IsTrue (is_success found) }
    ensures status { (found : Found) (reply : Reply) → status_reply_of found ≡ Some reply
        → (reply_status reply ≡ 0) ↔ IsTrue (is_success found) }
{}
