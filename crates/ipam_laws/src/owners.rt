//! Owners over a whole history: no address has two, and in which ways they change.
ghost use Rattle.ipam_model.specs.OwnerLaw.{OneOwnerLaw, OwnersLaw, OwnersOrderLaw};

/// In a consistent datastore, the owners are listed by family and address, each address once.
pub fn owners_are_listed_by_family_and_address()
    ensures { OwnersOrderLaw }
{}

/// At each moment, whoever own one address are one owner.
pub fn no_address_has_two_owners()
    ensures { OneOwnerLaw }
{}

/// With each entry the owners stay as they are; or an ADD gains one, of an address that nobody owned
/// and with the handle of its request; or a DEL loses all that its handle owned in one block; or an
/// ADD loses one that it had gained; or a collection loses one leak.
pub fn owners_change_in_five_ways()
    ensures { OwnersLaw }
{}
