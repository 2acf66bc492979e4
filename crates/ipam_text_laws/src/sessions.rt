//! What the client and a session make of each other's lines. Each function does nothing: its
//! contract is the law.
ghost use Rattle.std.specs.Prelude.{◌≡◌, ℕ, ◌≤◌, List, Some, IsUtf8};
ghost use Rattle.cni_types.specs.Reading.{Pair};
ghost use Rattle.ipam_call.specs.Replies.{reply_of_line};
ghost use Rattle.ipam_call.specs.Requests.{cni_call_text as text_sent};
ghost use Rattle.ipam_session.specs.Calls.{call_begun};
ghost use Rattle.ipam_session.specs.Replies.{call_text as text_replied};
ghost use Rattle.ipam_session.specs.Wishes.{wish_of_line};
ghost use Rattle.ipam_session.specs.declared.wish.Wish.TheVariants.{Cni};
ghost use Rattle.ipam_text_laws.specs.Sent.{HasTextValues, pairs_sent};

/// The line that a call sends is read as the call: with the variables that CNI knows, each with
/// its last value, and with the standard input.
#[tactic(auto, using(crate::proofs::CallsRead::sent_read))]
pub fn calls_that_are_sent_are_read()
    ensures { (env : List Pair) (input : List ℕ) → HasTextValues env → IsUtf8 input
        → wish_of_line (text_sent env input) ≡ Some (Cni (pairs_sent env) input) }
{}

/// A session begins of what is sent what it would begin of the whole environment, or refuses it
/// alike.
#[tactic(auto, using(crate::proofs::CallsBegun::sent_begins))]
pub fn what_is_sent_tells_the_whole_call()
    ensures { (env : List Pair) (input : List ℕ)
        → call_begun (pairs_sent env) input ≡ call_begun env input }
{}

/// The reply to a call is taken as its status and its standard output.
#[tactic(auto, using(crate::proofs::RepliesTaken::replied_taken))]
pub fn replies_to_calls_are_taken()
    ensures { (status : ℕ) (stdout : List ℕ) → status ≤ 1 → IsUtf8 stdout
        → reply_of_line (text_replied status stdout)
        ≡ Some (record { status = status; stdout = stdout }) }
{}
