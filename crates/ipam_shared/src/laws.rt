//! Laws of what is kept. The functions do nothing: their contracts are the laws.
ghost use Rattle.ipam_shared.specs.Doubt.{KeptOpensLaw};
ghost use Rattle.ipam_shared.specs.Sure.{SureOpensLaw};

/// Whatever rows a keeper has of a lawful history, be the write in doubt done or not, they may be
/// opened, as the datastore of a lawful history.
pub fn what_is_kept_may_be_opened()
    ensures { KeptOpensLaw }
{}

/// Whatever rows a keeper is sure of in a lawful history, which is what a crash leaves, they may be opened: as
/// the datastore of a moment of that history no earlier than the last settling. Of the call whose write was in
/// doubt at that moment, if there was one, the write may be done or not.
pub fn what_is_sure_may_be_opened()
    ensures { SureOpensLaw }
{}
