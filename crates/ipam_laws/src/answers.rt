//! Which answers requests have, and what they say.
ghost use Rattle.ipam_laws.specs.RightAnswers.{AddAnswersLaw, ChangeAnswersLaw, CollectAnswersLaw, DelAnswersLaw, ReleaseAnswersLaw, StopLaw, ThisAnswersLaw, WholeProbeLaw};
ghost use Rattle.ipam_model.specs.AnswerLaw.{AnswersLaw, CheckAnswersLaw};
ghost use Rattle.ipam_model.specs.CanAnswer.{CanAnswerLaw};
ghost use Rattle.ipam_model.specs.FamilyLaw.{FamilyLaw};

/// Each answer is one of those that the procedure of its request has, or says that a call failed.
pub fn each_answer_is_one_of_its_procedure()
    ensures { CanAnswerLaw }
{}

/// An ADD tells of families that were wanted, and of rounds that were for them: each family wanted
/// before had been given an address by then, and this one had not. So of each address that it gives,
/// of the family that has none, of a name that no pool has, and of a count at its limit.
pub fn an_add_tells_of_a_round_for_a_wanted_family()
    ensures { FamilyLaw }
{}

/// A CHECK is answered that all is recorded where the handle held each address in the block of its
/// slot when that was read; and else which address was the first that it didn't hold.
pub fn a_check_is_answered_as_the_blocks_were_read()
    ensures { CheckAnswersLaw }
{}

/// Whatever a probe is answered is right: one that is ready scanned once for each wanted family, one
/// after the other, and found an address or a claim in each; one that is answered that nothing is
/// left, or that no pool has a name, found that in its last scan, and something in those before.
pub fn a_probe_is_answered_by_its_scans()
    ensures { WholeProbeLaw }
{}

/// Whatever the release of an affinity is answered is right: that it was released, where it was marked
/// and then deleted at its mark, and the block does not have the node; that there was none; and why
/// it stopped.
pub fn a_release_is_answered_right()
    ensures { ReleaseAnswersLaw }
{}

/// Whatever a change by an operator is answered is right: done, where what was read last was changed
/// and written; refused, where what was read last refuses it; and why it stopped.
pub fn a_change_is_answered_right()
    ensures { ChangeAnswersLaw }
{}

/// Whatever an ADD of one address is answered is right: the address was free in the block of its slot,
/// by the rules that were read, and then recorded to the handle with a new stamp; or no usable pool
/// holds it, or a handle has it, or its block is another node's. Where it is answered that there was no
/// room or that a count is at its limit, nothing of it is owned.
pub fn an_add_of_one_address_is_answered_right()
    ensures { ThisAnswersLaw }
{}

/// Whatever a DEL is answered is right: it read its handle at the moment that it tells, and of what the
/// handle owned then it owns nothing any more; or why it stopped.
pub fn a_del_is_answered_right()
    ensures { DelAnswersLaw }
{}

/// Each answer to an ADD without an address is right. It gives, for each wanted family, in their order,
/// an address that was the choice on what was read at the moments that the answer names, in a block as it
/// was listed, and that was recorded later to the handle, with the request's attributes and a new stamp.
/// It has none where the choice on what was read is nothing, where no enabled pool has a name that it was
/// given, where a record could not be created, or where the handle's count of the chosen block was at its
/// limit; and then nothing that it was given is owned any more.
pub fn an_add_is_answered_right()
    ensures { AddAnswersLaw }
{}

/// Whatever a collection is answered is right: it tells of exactly the owners that were in scope, live by
/// neither list of live handles, and owners still when the blocks were listed again; in the order of
/// their addresses, each marked as freed exactly where this collection freed it; and none of them owns its
/// address any more. Or it says why it stopped.
pub fn a_collection_is_answered_right()
    ensures { CollectAnswersLaw }
{}

/// Whatever any request is answered is right of the history that led to it.
pub fn every_answer_is_right()
    ensures { AnswersLaw }
{}

/// The reason why a request stopped is so. One that was tried too often lost exactly so many races and
/// confirmed so many claims, and this call made one of them reach its bound. One that found no room could
/// not create a record. One that found no revisions had this as the reply to this call.
pub fn what_stops_a_request_is_so()
    ensures { StopLaw }
{}
