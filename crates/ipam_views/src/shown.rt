//! `show`: what is asked of a datastore.
ghost use Rattle.std.specs.Prelude.{◌≡◌, ◌≤◌, length, IfOk, string_bytes};
ghost use Rattle.ipam_records.specs.Datastore.{most_blocks};
ghost use Rattle.ipam_show.specs.Kept.{blocks_kept};
ghost use Rattle.ipam_views.specs.Shown.{shown_text};
ghost use Rattle.ipam_words.specs.Views.{seen_by};

use crate::config_shown::show_config;
use crate::handle_shown::show_handle;
use crate::metrics::show_metrics;
use crate::node_shown::show_node;
use ipam_show::{show_address, show_addresses, show_blocks, show_json, show_pools};
use ipam_store::Store;
use ipam_words::View;
use std::alloc::{AllocError, Global};

/// What is asked of the datastore.
pub fn shown_text(alloc: Global, view: &View<'_>, store: &Store) -> Result<String, AllocError>
    requires { length (blocks_kept store.now.store) ≤ most_blocks }
    ensures { IfOk result (λ text. string_bytes text ≡ shown_text (seen_by view.now) store.now.store) }
{
    match view {
        View::Pools => show_pools(alloc, store),
        View::Json => show_json(alloc, store),
        View::Blocks => show_blocks(alloc, store),
        View::Address(address) => show_address(alloc, store, *address),
        View::Node(node, form) => show_node(alloc, store, node, *form),
        View::Handle(handle, form) => show_handle(alloc, store, handle, *form),
        View::Config(form) => show_config(alloc, store, *form),
        View::Metrics => show_metrics(alloc, store),
        View::Addresses(chosen, form) => show_addresses(alloc, store, chosen, *form),
    }
}
