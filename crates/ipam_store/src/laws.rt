//! Laws of the datastore. Each function does nothing: its contract is the law.
ghost use Rattle.std.specs.Prelude.{◌≡◌, ℕ, Some};
ghost use Rattle.ipam_records.specs.declared.call.Call.{Call};
ghost use Rattle.ipam_records.specs.declared.call.Write.{Write};
ghost use Rattle.ipam_records.specs.Said.{Can};
ghost use Rattle.ipam_records.specs.Sound.{IsDatastore};
ghost use Rattle.ipam_records.specs.Datastore.{Datastore, reply_of, write_of, written};
ghost use Rattle.ipam_store.specs.Granted.{IsGranted, IsSoundWrite};

/// The write that a call asks for may be applied, once the datastore answered that it can.
pub fn what_can_be_written_is_granted()
    ensures { (store : Datastore) (call : Call) (revision : ℕ) (write : Write)
        → reply_of store call ≡ Can revision → write_of call revision ≡ Some write
        → IsGranted store write }
{}

/// A granted write of a sound record keeps the datastore sound.
pub fn granted_sound_writes_keep_the_datastore_sound()
    ensures { (store : Datastore) (write : Write)
        → IsDatastore store → IsGranted store write → IsSoundWrite write
        → IsDatastore (written store write) }
{}
