//! Laws of the definitions. Each function does nothing: its contract is the law.
ghost use Rattle.std.specs.Prelude.{◌≡◌};
ghost use Rattle.ipam_model.specs.Usable.{Asked};
ghost use Rattle.ipam_model.specs.Choice.{Seen, IsChoice, choice_of};
ghost use Rattle.ipam_model.specs.declared.choice.Choice.{Choice as OneChoice};

/// What an ADD takes is the first name that no pool has, or else the least candidate by rank, by
/// the place of its pool and by the number of its slot, and nothing where there is no candidate.
pub fn the_choice_is_the_first_candidate()
    ensures is { (asked : Asked) (seen : Seen) → IsChoice asked seen (choice_of asked seen) }
    ensures only { (asked : Asked) (seen : Seen) (choice : OneChoice) → IsChoice asked seen choice
        → choice ≡ choice_of asked seen }
{}
