//! The blocks of a node.
ghost use Rattle.std.specs.Prelude.{◌≡◌, ◌<◌, ◌≤◌, ◌^◌, filter, length, IfOk};
ghost use Rattle.ipam_records.specs.Datastore.{most_blocks};
ghost use Rattle.ipam_show.specs.Kept.{blocks_kept};
ghost use Rattle.ipam_show.specs.Scopes.{is_of_node};
ghost use Rattle.ipam_views.specs.Node.{own_counts};

use ipam_show::{BlockCount, counts_kept, is_of_node};
use ipam_store::Store;
use std::alloc::{AllocError, Global};

/// The blocks of the node, counted, by family, base and prefix.
pub(crate) fn own_counts(
    alloc: Global,
    store: &Store,
    node: &str,
) -> Result<Vec<BlockCount>, AllocError>
    requires few { length (blocks_kept store.now.store) ≤ most_blocks }
    ensures counts { IfOk result (λ counts. counts.items ≡ own_counts node.now store.now.store) }
    ensures few { IfOk result (λ counts. length counts.items < 2 ^ 32) }
{
    let counts = counts_kept(alloc, store)?;
    Ok(of_node(counts, node))
}

fn of_node(counts: Vec<BlockCount>, node: &str) -> Vec<BlockCount>
    ensures counts { result.items ≡ filter (is_of_node node.now) counts.items }
    ensures few { length result.items ≤ length counts.items }
{
    let mut counts = counts;
    counts.retain(|count| is_of_node(node, count));
    counts
}
