//! Laws of bodies. Each function does nothing: its contract is the law.
ghost use Rattle.std.specs.Prelude.{◌≡◌, ◌≢◌, ℕ, List, Ok, Err};
ghost use Rattle.std.specs.List.{AllByRecursion};
ghost use Rattle.ipam_block.specs.declared.record.Affinity.{Affinity};
ghost use Rattle.ipam_block.specs.HandleShape.{HandleValue};
ghost use Rattle.ipam_block.specs.HandleSound.{IsHandleRecord};
ghost use Rattle.ipam_pool.specs.declared.pools.Pool.{Pool};
ghost use Rattle.ipam_pool.specs.Shape.{ReservationValue};
ghost use Rattle.ipam_record_text.specs.declared.config.Config.{Config};
ghost use Rattle.ipam_record_text.specs.declared.fault.BodyFault.TheVariants.{Form, Table};
ghost use Rattle.ipam_record_text.specs.Config.{config_body, config_reading, IsConfigRecord};
ghost use Rattle.ipam_record_text.specs.Affinity.{affinity_body, affinity_reading, IsAffinityRecord};
ghost use Rattle.ipam_record_text.specs.Handle.{handle_body, handle_reading};
ghost use Rattle.ipam_record_text.specs.Pools.{pools_body, pools_reading, IsSoundPool, IsPoolsRecord, HasRefusedPool};
ghost use Rattle.ipam_record_text.specs.Reservations.{reservations_body, reservations_reading, IsReservationsRecord};

/// What is read of a body is sound, and has this very body.
pub fn what_is_read_has_the_body()
    ensures config { (body : List ℕ) (c : Config) → config_reading body ≡ Ok c
        → (body ≡ config_body c) × IsConfigRecord c }
    ensures affinity { (body : List ℕ) (a : Affinity) → affinity_reading body ≡ Ok a
        → (body ≡ affinity_body a) × IsAffinityRecord a }
    ensures handle { (body : List ℕ) (h : HandleValue) → handle_reading body ≡ Ok h
        → (body ≡ handle_body h) × IsHandleRecord h }
    ensures pools { (body : List ℕ) (pools : List Pool) → pools_reading body ≡ Ok pools
        → (body ≡ pools_body pools) × IsPoolsRecord pools }
    ensures reservations { (body : List ℕ) (rs : List ReservationValue)
        → reservations_reading body ≡ Ok rs
        → (body ≡ reservations_body rs) × IsReservationsRecord rs }
{}

/// The body of each sound value is read as that value.
pub fn each_sound_value_is_read_back()
    ensures config { (c : Config) → IsConfigRecord c → config_reading (config_body c) ≡ Ok c }
    ensures affinity { (a : Affinity) → IsAffinityRecord a
        → affinity_reading (affinity_body a) ≡ Ok a }
    ensures handle { (h : HandleValue) → IsHandleRecord h → handle_reading (handle_body h) ≡ Ok h }
    ensures pools { (pools : List Pool) → IsPoolsRecord pools
        → pools_reading (pools_body pools) ≡ Ok pools }
    ensures reservations { (rs : List ReservationValue) → IsReservationsRecord rs
        → reservations_reading (reservations_body rs) ≡ Ok rs }
{}

/// A body that no sound value has is out of form, and one of pools of which one is refused has the
/// fault of a table.
pub fn what_is_no_sound_value_has_its_fault()
    ensures config { (body : List ℕ) → ((c : Config) → IsConfigRecord c → body ≢ config_body c)
        → config_reading body ≡ Err Form }
    ensures affinity { (body : List ℕ)
        → ((a : Affinity) → IsAffinityRecord a → body ≢ affinity_body a)
        → affinity_reading body ≡ Err Form }
    ensures handle { (body : List ℕ) → ((h : HandleValue) → IsHandleRecord h → body ≢ handle_body h)
        → handle_reading body ≡ Err Form }
    ensures pools { (body : List ℕ)
        → ((pools : List Pool) → AllByRecursion IsSoundPool pools → body ≢ pools_body pools)
        → pools_reading body ≡ Err Form }
    ensures table { (body : List ℕ) → HasRefusedPool body → pools_reading body ≡ Err Table }
    ensures reservations { (body : List ℕ)
        → ((rs : List ReservationValue) → IsReservationsRecord rs → body ≢ reservations_body rs)
        → reservations_reading body ≡ Err Form }
{}
