//! What the datastore does over a whole history.
ghost use Rattle.ipam_model.specs.AffinityLaw.{OneRecordLaw};
ghost use Rattle.ipam_model.specs.ReplyLaw.{RepliesLaw, MayHearLaw};

/// Each call has the datastore's own reply, and does what the datastore granted; one that failed
/// before has no reply and does nothing.
pub fn each_call_has_the_reply_of_the_datastore()
    ensures { RepliesLaw }
{}

/// Whenever a key is found at a revision, it has the same record there.
pub fn one_key_and_one_revision_have_one_record()
    ensures { OneRecordLaw }
{}

/// What runs may hear the datastore's reply to its call: some sound datastore answers so, and a
/// read of the handle that the request has a credit for finds a count as high as the credit.
pub fn what_runs_may_be_told_the_reply_of_the_datastore()
    ensures { MayHearLaw }
{}
