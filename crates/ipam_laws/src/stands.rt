//! Clusters stand for histories.
ghost use Rattle.ipam_model.specs.Stands.{AnewLaw, EntriesLaw, StandsLaw};

/// A cluster that was opened stands for the history without an entry, and an entry that may come
/// next is added to each history that a cluster stands for. Where nothing runs, it stands for its own
/// datastore and number of entries, too.
pub fn a_cluster_stands_for_its_history()
    ensures { StandsLaw }
{}

/// A cluster that stands for a history has its entries and those of the base, and nothing in slots
/// that are not there.
pub fn a_cluster_has_the_entries_of_its_history()
    ensures { EntriesLaw }
{}

/// Where nothing runs, a history goes on as one of the datastore and the number of entries that
/// there are.
pub fn where_nothing_runs_a_history_begins_anew()
    ensures { AnewLaw }
{}
