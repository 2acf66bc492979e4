//! The base of the generator's cluster.
ghost use Rattle.std.specs.Prelude.{◌≡◌, [], ◌∷◌, IfOk};
ghost use Rattle.ipam_cluster.specs.Cluster.{StandsFor};
ghost use Rattle.ipam_command.specs.Counted.{pools_row};
ghost use Rattle.ipam_command.specs.Requests.{base};

use ipam_cluster::{Base, Cluster, OpenFault};
use ipam_records::Row;
use ipam_text::Text;
use std::alloc::{AllocError, Global};

/// The body of the pools: one of 10.0.0.0/16, with blocks of 64.
const POOLS: &str =
    r#"{"pools":[{"blockSize":26,"cidr":"10.0.0.0/16","disabled":false,"name":"g"}]}"#;

/// A cluster over the base, to which nothing has happened.
pub(crate) fn open(alloc: Global) -> Result<Cluster, AllocError>
    ensures { IfOk result (λ cluster. StandsFor cluster base []) }
{
    let rows = rows(alloc)?;
    let base = Base {
        rows,
        counter: 1,
        first: 0,
    };
    match Cluster::open(alloc, &base) {
        Ok(cluster) => Ok(cluster),
        Err(OpenFault::Refused(_, _)) => unreachable!(),
        Err(OpenFault::Memory) => Err(AllocError),
    }
}

/// The one row.
fn rows(alloc: Global) -> Result<Vec<Row>, AllocError>
    ensures { IfOk result (λ rows. rows.items ≡ pools_row ∷ []) }
{
    let key = Text::copied(alloc, "pools")?;
    let body = Text::copied(alloc, POOLS)?;
    let mut rows = Vec::new(alloc);
    rows.push(Row {
        key,
        revision: 1,
        body,
    })?;
    Ok(rows)
}
