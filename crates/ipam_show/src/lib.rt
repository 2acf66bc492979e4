//! The operator's view of a datastore: its pools, its blocks, one address, the addresses in use; and the tables, counts
//! and JSON that other views are made of. And what `get` tells of rows, wherever the rows come from.
#![tactic(auto)]

mod address_shown;
mod addresses_json;
mod addresses_shown;
mod blocks_shown;
mod cells;
mod counting;
mod in_use;
mod json_shown;
mod keeping;
mod left;
mod pools_shown;
mod rows;
mod sums;
mod tables;
mod usage;

pub use address_shown::show_address;
pub use addresses_json::addresses_value;
pub use addresses_shown::show_addresses;
pub use blocks_shown::{show_blocks, state_of};
pub use cells::{add_row, addresses_cell, cidr_cell, state_word};
pub use counting::{BlockCount, counts_kept};
pub use json_shown::{put_cell, put_text, show_json};
pub use keeping::pools_kept;
pub use left::{left_cell, use_word};
pub use pools_shown::show_pools;
pub use rows::rows_text;
pub use sums::{Amount, Scope, amount_sum, block_sum, is_of_node};
pub use tables::table_text;
pub use usage::{PoolUsage, pools_usage};
