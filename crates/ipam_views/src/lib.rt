//! The operator's view of one node, of one handle and of the configuration; numbers; and what `show` tells.
#![tactic(auto)]

mod config_shown;
mod handle_json;
mod handle_shown;
mod high_counts;
mod metrics;
mod node_json;
mod node_shown;
mod own_counts;
mod shown;

pub use config_shown::show_config;
pub use handle_shown::show_handle;
pub use metrics::show_metrics;
pub use node_shown::show_node;
pub use shown::shown_text;
