//! `show --metrics`: numbers in the text format that Prometheus reads (version 0.0.4).
ghost use Rattle.std.specs.Prelude.{◌≡◌, ◌<◌, ◌≤◌, ◌^◌, ◌++◌, All, IfOk, OnOk, bytes_eq, codes, decimal, length, string_bytes};
ghost use Rattle.ipam_records.specs.Datastore.{most_blocks, most_rows};
ghost use Rattle.ipam_show.specs.Kept.{blocks_kept};
ghost use Rattle.ipam_show.specs.Left.{IsOfSlots};
ghost use Rattle.ipam_show.specs.Scopes.{block_sum, is_any};
ghost use Rattle.ipam_views.specs.Metrics.{head_text, last_of, later, metrics_text, node_families, node_family, node_metric_help, node_metric_name, node_number, node_sample, node_samples, nodes_of, numbers_text, one_family, pool_families, pool_family, pool_labels, pool_metric_help, pool_metric_name, pool_number, pool_sample, pool_samples, row_families, with_node};
ghost use Rattle.std.specs.List.{list_any};

use ipam_addr::push_cidr;
use ipam_pool::Pool;
use ipam_records::{MOST_BLOCKS, MOST_ROWS};
use ipam_show::{
    Amount, BlockCount, Scope, addresses_cell, amount_sum, block_sum, counts_kept, left_cell,
    pools_kept,
};
use ipam_store::Store;
use ipam_text::Text;
use itoa::Buffer;
use std::alloc::{AllocError, Global};

/// What is counted of a pool.
#[derive(Clone, Copy)]
pub(crate) enum PoolMetric {
    /// The addresses of the pool.
    Addresses,
    /// Assigned addresses.
    Used,
    /// Addresses of its blocks that could still be given.
    Free,
    /// The blocks of the pool.
    Blocks,
    /// Blocks that a node can still take.
    BlocksLeft,
}

/// What is counted of the blocks of a node.
#[derive(Clone, Copy)]
pub(crate) enum NodeMetric {
    /// Their addresses.
    Addresses,
    /// Those that are assigned.
    Used,
    /// Those that could still be given.
    Free,
    /// The blocks themselves.
    Blocks,
}

/// The numbers of each pool, of each node that has a block, and of all rows, each behind its lines HELP and TYPE.
pub fn show_metrics(alloc: Global, store: &Store) -> Result<String, AllocError>
    requires few { length (blocks_kept store.now.store) ≤ most_blocks }
    ensures { IfOk result (λ text. string_bytes text ≡ metrics_text store.now.store) }
{
    let counts = counts_kept(alloc, store)?;
    numbers_text(alloc, store, &counts)
}

#[tactic(auto, unfolding(crate::specs::Metrics::numbers_text))]
fn numbers_text(alloc: Global, store: &Store, counts: &[BlockCount]) -> Result<String, AllocError>
    requires { length counts.now < 2 ^ 32 }
    ensures { IfOk result (λ text. string_bytes text ≡ numbers_text counts.now store.now.store) }
{
    let nodes = nodes_of(alloc, counts)?;
    let mut text = String::new(alloc);
    push_pools(alloc, &mut text, counts, pools_kept(store))?;
    push_nodes(alloc, &mut text, counts, &nodes)?;
    push_rows(alloc, &mut text, counts, store)?;
    Ok(text)
}

/// Appends the lines before the numbers of a metric.
#[tactic(auto, unfolding(crate::specs::Metrics::head_text))]
fn push_head(text: &mut String, name: &str, help: &str) -> Result<(), AllocError>
    ensures { OnOk result (string_bytes text.new ≡ string_bytes text.old ++ head_text name.now help.now) }
{
    text.push_str("# HELP ")?;
    text.push_str(name)?;
    text.push_str(" ")?;
    text.push_str(help)?;
    text.push_str("\n# TYPE ")?;
    text.push_str(name)?;
    text.push_str(" gauge\n")
}

fn number_cell(alloc: Global, number: u64) -> Result<Text, AllocError>
    ensures { IfOk result (λ text. text ≡ decimal number) }
{
    let mut buffer = Buffer::new();
    Text::copied(alloc, buffer.format(number))
}

#[tactic(auto, unfolding(crate::specs::Metrics::pool_families))]
fn push_pools(
    alloc: Global,
    text: &mut String,
    counts: &[BlockCount],
    pools: &[Pool],
) -> Result<(), AllocError>
    requires few { length counts.now < 2 ^ 32 }
    requires slots { All IsOfSlots pools.now }
    ensures { OnOk result (string_bytes text.new ≡ string_bytes text.old ++ pool_families counts.now pools.now) }
{
    push_pool_family(alloc, text, PoolMetric::Addresses, counts, pools)?;
    push_pool_family(alloc, text, PoolMetric::Used, counts, pools)?;
    push_pool_family(alloc, text, PoolMetric::Free, counts, pools)?;
    push_pool_family(alloc, text, PoolMetric::Blocks, counts, pools)?;
    push_pool_family(alloc, text, PoolMetric::BlocksLeft, counts, pools)
}

fn push_pool_family(
    alloc: Global,
    text: &mut String,
    metric: PoolMetric,
    counts: &[BlockCount],
    pools: &[Pool],
) -> Result<(), AllocError>
    requires few { length counts.now < 2 ^ 32 }
    requires slots { All IsOfSlots pools.now }
    ensures { OnOk result (string_bytes text.new ≡ string_bytes text.old ++ pool_family metric counts.now pools.now) }
{
    push_head(text, pool_metric_name(metric), pool_metric_help(metric))?;
    push_pool_samples(alloc, text, metric, counts, pools)
}

fn push_pool_samples(
    alloc: Global,
    text: &mut String,
    metric: PoolMetric,
    counts: &[BlockCount],
    pools: &[Pool],
) -> Result<(), AllocError>
    requires few { length counts.now < 2 ^ 32 }
    requires slots { All IsOfSlots pools.now }
    ensures { OnOk result (string_bytes text.new ≡ string_bytes text.old ++ pool_samples metric counts.now pools.now) }
{
    for pool in pools {
        push_pool_sample(alloc, text, metric, counts, pool)?;
    }
    Ok(())
}

#[tactic(auto, unfolding(crate::specs::Metrics::pool_sample))]
fn push_pool_sample(
    alloc: Global,
    text: &mut String,
    metric: PoolMetric,
    counts: &[BlockCount],
    pool: &Pool,
) -> Result<(), AllocError>
    requires few { length counts.now < 2 ^ 32 }
    requires slots { IsOfSlots pool.now }
    ensures { OnOk result (string_bytes text.new ≡ string_bytes text.old ++ pool_sample metric counts.now pool.now) }
{
    let number = pool_number(alloc, metric, counts, pool)?;
    text.push_str(pool_metric_name(metric))?;
    push_pool_labels(alloc, text, pool)?;
    text.push_str(number.as_str())?;
    text.push_str("\n")
}

#[tactic(auto, unfolding(crate::specs::Metrics::pool_labels))]
fn push_pool_labels(alloc: Global, text: &mut String, pool: &Pool) -> Result<(), AllocError>
    ensures { OnOk result (string_bytes text.new ≡ string_bytes text.old ++ pool_labels pool.now) }
{
    text.push_str("{cidr=\"")?;
    push_cidr(alloc, text, pool.cidr)?;
    text.push_str("\",pool=\"")?;
    text.push_str(pool.name.as_str())?;
    text.push_str("\"} ")
}

fn pool_number(
    alloc: Global,
    metric: PoolMetric,
    counts: &[BlockCount],
    pool: &Pool,
) -> Result<Text, AllocError>
    requires few { length counts.now < 2 ^ 32 }
    requires slots { IsOfSlots pool.now }
    ensures { IfOk result (λ text. text ≡ decimal (pool_number metric counts.now pool.now)) }
{
    let scope = Scope::Pool(pool.cidr);
    match metric {
        PoolMetric::Addresses => addresses_cell(alloc, pool.cidr),
        PoolMetric::Used => number_cell(alloc, amount_sum(Amount::Used, &scope, counts)),
        PoolMetric::Free => number_cell(alloc, amount_sum(Amount::Free, &scope, counts)),
        PoolMetric::Blocks => number_cell(alloc, block_sum(&scope, counts)),
        PoolMetric::BlocksLeft => left_cell(alloc, counts, pool),
    }
}

fn pool_metric_name(metric: PoolMetric) -> &'static str
    ensures { result.now ≡ pool_metric_name metric }
{
    match metric {
        PoolMetric::Addresses => "ipam_pool_addresses",
        PoolMetric::Used => "ipam_pool_addresses_in_use",
        PoolMetric::Free => "ipam_pool_addresses_free_in_blocks",
        PoolMetric::Blocks => "ipam_pool_blocks",
        PoolMetric::BlocksLeft => "ipam_pool_blocks_left",
    }
}

fn pool_metric_help(metric: PoolMetric) -> &'static str
    ensures { result.now ≡ pool_metric_help metric }
{
    match metric {
        PoolMetric::Addresses => "Addresses of the pool.",
        PoolMetric::Used => "Addresses of the pool that are in use.",
        PoolMetric::Free => "Addresses of the pool's blocks that could still be given.",
        PoolMetric::Blocks => "Blocks of the pool.",
        PoolMetric::BlocksLeft => "Blocks of the pool that a node can still take.",
    }
}

/// The nodes that have blocks, each once, by their first blocks.
fn nodes_of(alloc: Global, counts: &[BlockCount]) -> Result<Vec<Text>, AllocError>
    ensures { IfOk result (λ nodes. nodes.items ≡ nodes_of counts.now) }
{
    let mut nodes = Vec::new(alloc);
    for count in counts {
        add_node(&mut nodes, &count.node)?;
    }
    Ok(nodes)
}

fn add_node(nodes: &mut Vec<Text>, node: &Option<Text>) -> Result<(), AllocError>
    ensures { OnOk result (nodes.new.items ≡ with_node nodes.old.items node.now) }
{
    match node {
        Some(name) if !has_node(nodes.as_slice(), name) => {
            nodes.push(name.clone()?)?;
            Ok(())
        }
        _ => Ok(()),
    }
}

fn has_node(nodes: &[Text], name: &Text) -> bool
    ensures { result ≡ list_any (bytes_eq name.now) nodes.now }
{
    nodes.iter().any(|node| name.as_str() == node.as_str())
}

#[tactic(auto, unfolding(crate::specs::Metrics::node_families))]
fn push_nodes(
    alloc: Global,
    text: &mut String,
    counts: &[BlockCount],
    nodes: &[Text],
) -> Result<(), AllocError>
    requires { length counts.now < 2 ^ 32 }
    ensures { OnOk result (string_bytes text.new ≡ string_bytes text.old ++ node_families counts.now nodes.now) }
{
    push_node_family(alloc, text, NodeMetric::Addresses, counts, nodes)?;
    push_node_family(alloc, text, NodeMetric::Used, counts, nodes)?;
    push_node_family(alloc, text, NodeMetric::Free, counts, nodes)?;
    push_node_family(alloc, text, NodeMetric::Blocks, counts, nodes)
}

fn push_node_family(
    alloc: Global,
    text: &mut String,
    metric: NodeMetric,
    counts: &[BlockCount],
    nodes: &[Text],
) -> Result<(), AllocError>
    requires { length counts.now < 2 ^ 32 }
    ensures { OnOk result (string_bytes text.new ≡ string_bytes text.old ++ node_family metric counts.now nodes.now) }
{
    push_head(text, node_metric_name(metric), node_metric_help(metric))?;
    push_node_samples(alloc, text, metric, counts, nodes)
}

fn push_node_samples(
    alloc: Global,
    text: &mut String,
    metric: NodeMetric,
    counts: &[BlockCount],
    nodes: &[Text],
) -> Result<(), AllocError>
    requires { length counts.now < 2 ^ 32 }
    ensures { OnOk result (string_bytes text.new ≡ string_bytes text.old ++ node_samples metric counts.now nodes.now) }
{
    for node in nodes {
        push_node_sample(alloc, text, metric, counts, node)?;
    }
    Ok(())
}

#[tactic(auto, unfolding(crate::specs::Metrics::node_sample))]
fn push_node_sample(
    alloc: Global,
    text: &mut String,
    metric: NodeMetric,
    counts: &[BlockCount],
    node: &Text,
) -> Result<(), AllocError>
    requires { length counts.now < 2 ^ 32 }
    ensures { OnOk result (string_bytes text.new ≡ string_bytes text.old ++ node_sample metric counts.now node.now) }
{
    let number = number_cell(alloc, node_number(metric, counts, node.as_str()))?;
    text.push_str(node_metric_name(metric))?;
    text.push_str("{node=\"")?;
    text.push_str(node.as_str())?;
    text.push_str("\"} ")?;
    text.push_str(number.as_str())?;
    text.push_str("\n")
}

fn node_number(metric: NodeMetric, counts: &[BlockCount], node: &str) -> u64
    requires { length counts.now < 2 ^ 32 }
    ensures { result ≡ node_number metric counts.now node.now }
{
    let scope = Scope::Node(node);
    match metric {
        NodeMetric::Addresses => amount_sum(Amount::Size, &scope, counts),
        NodeMetric::Used => amount_sum(Amount::Used, &scope, counts),
        NodeMetric::Free => amount_sum(Amount::Free, &scope, counts),
        NodeMetric::Blocks => block_sum(&scope, counts),
    }
}

fn node_metric_name(metric: NodeMetric) -> &'static str
    ensures { result.now ≡ node_metric_name metric }
{
    match metric {
        NodeMetric::Addresses => "ipam_node_addresses",
        NodeMetric::Used => "ipam_node_addresses_in_use",
        NodeMetric::Free => "ipam_node_addresses_free_in_blocks",
        NodeMetric::Blocks => "ipam_node_blocks",
    }
}

fn node_metric_help(metric: NodeMetric) -> &'static str
    ensures { result.now ≡ node_metric_help metric }
{
    match metric {
        NodeMetric::Addresses => "Addresses of the node's blocks.",
        NodeMetric::Used => "Addresses of the node's blocks that are in use.",
        NodeMetric::Free => "Addresses of the node's blocks that could still be given.",
        NodeMetric::Blocks => "Blocks of the node.",
    }
}

#[tactic(auto, unfolding(crate::specs::Metrics::row_families))]
fn push_rows(
    alloc: Global,
    text: &mut String,
    counts: &[BlockCount],
    store: &Store,
) -> Result<(), AllocError>
    requires { length counts.now < 2 ^ 32 }
    ensures { OnOk result (string_bytes text.new ≡ string_bytes text.old ++ row_families counts.now store.now.store) }
{
    push_blocks(alloc, text, counts)?;
    push_most_blocks(alloc, text)?;
    push_row_count(alloc, text, store)?;
    push_most_rows(alloc, text)?;
    push_revision(alloc, text, store)
}

fn push_blocks(alloc: Global, text: &mut String, counts: &[BlockCount]) -> Result<(), AllocError>
    requires { length counts.now < 2 ^ 32 }
    ensures { OnOk result (string_bytes text.new
        ≡ string_bytes text.old ++ one_family (codes "ipam_blocks") (codes "Blocks.") (block_sum is_any counts.now)) }
{
    let blocks = block_sum(&Scope::All, counts);
    push_one(alloc, text, "ipam_blocks", "Blocks.", blocks)
}

fn push_most_blocks(alloc: Global, text: &mut String) -> Result<(), AllocError>
    ensures { OnOk result (string_bytes text.new
        ≡ string_bytes text.old ++ one_family (codes "ipam_blocks_limit") (codes "Blocks that there may be.") most_blocks) }
{
    let name = "ipam_blocks_limit";
    push_one(
        alloc,
        text,
        name,
        "Blocks that there may be.",
        MOST_BLOCKS as u64,
    )
}

fn push_row_count(alloc: Global, text: &mut String, store: &Store) -> Result<(), AllocError>
    ensures { OnOk result (string_bytes text.new
        ≡ string_bytes text.old ++ one_family (codes "ipam_rows") (codes "Rows.") (length store.now.store.rows)) }
{
    push_one(alloc, text, "ipam_rows", "Rows.", store.rows() as u64)
}

fn push_most_rows(alloc: Global, text: &mut String) -> Result<(), AllocError>
    ensures { OnOk result (string_bytes text.new
        ≡ string_bytes text.old ++ one_family (codes "ipam_rows_limit") (codes "Rows that there may be.") most_rows) }
{
    let name = "ipam_rows_limit";
    push_one(
        alloc,
        text,
        name,
        "Rows that there may be.",
        MOST_ROWS as u64,
    )
}

fn push_revision(alloc: Global, text: &mut String, store: &Store) -> Result<(), AllocError>
    ensures { OnOk result (string_bytes text.new
        ≡ string_bytes text.old ++ one_family (codes "ipam_revision") (codes "Greatest revision of a row.") (last_of store.now.store.rows)) }
{
    let last = last_of(store);
    push_one(
        alloc,
        text,
        "ipam_revision",
        "Greatest revision of a row.",
        last,
    )
}

#[tactic(auto, unfolding(crate::specs::Metrics::one_family))]
fn push_one(
    alloc: Global,
    text: &mut String,
    name: &str,
    help: &str,
    number: u64,
) -> Result<(), AllocError>
    ensures { OnOk result (string_bytes text.new ≡ string_bytes text.old ++ one_family name.now help.now number) }
{
    let number = number_cell(alloc, number)?;
    push_head(text, name, help)?;
    text.push_str(name)?;
    text.push_str(" ")?;
    text.push_str(number.as_str())?;
    text.push_str("\n")
}

/// The greatest revision of a row, or 0 where there is none.
fn last_of(store: &Store) -> u64
    ensures { result ≡ last_of store.now.store.rows }
{
    let mut most = 0u64;
    for place in 0..store.rows() {
        most = later(most, store.row(place).0);
    }
    most
}

fn later(most: u64, revision: u64) -> u64
    ensures { result ≡ later most revision }
{
    if most < revision { revision } else { most }
}
