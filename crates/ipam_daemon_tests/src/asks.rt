// Requests of one cluster, one after the other, over a keeper of which writes and settlings fail.
ghost use Rattle.std.specs.Prelude.{◌≡◌};
ghost use Rattle.ipam_model.specs.SoundRequest.{IsSoundRequest};
ghost use Rattle.ipam_shared.specs.Kept.{IsKept};
ghost use Rattle.ipam_shared.specs.Solo.{HasNoGrace, NothingRuns};

use crate::told::Told;
use crate::{keepers, requests};
use ipam_cluster::Cluster;
use ipam_keeper::{Keeper, Row};
use ipam_model::{Answer, Request};
use ipam_shared::{Kept, run_alone};
use std::alloc::{AllocError, Global};

/// Tells what comes of each step, and the keeper's rows then.
pub fn tell<D: Keeper + Drop>(alloc: Global, keeper: D, steps: &str, told: &mut Told) {
    let Some(mut kept) = keepers::open(alloc, keeper, 0) else {
        told.push(String::from_str(alloc, "not opened"));
        return;
    };
    for line in steps.lines() {
        told.push(step_text(alloc, &mut kept, line));
    }
    let mut keeper = kept.into_keeper();
    told.push(match keeper.load() {
        Ok(rows) => rows_text(alloc, "keeper", rows.as_slice()),
        Err(_) => String::from_str(alloc, "keeper fault"),
    });
}

/// What comes of a step: `settle`, `base`, or the text of a request.
fn step_text<D: Keeper>(alloc: Global, kept: &mut Kept<D>, line: &str) -> Result<String, AllocError>
    requires idle { NothingRuns kept.old }
    requires kept { IsKept D.rows kept.old }
    ensures idle { NothingRuns kept.new }
    ensures kept { IsKept D.rows kept.new }
{
    match line {
        "settle" => settled_text(alloc, kept),
        "base" => base_text(alloc, kept.cluster()),
        _ => answer_text(alloc, kept, line),
    }
}

#[tactic(auto, using(crate::proofs::Opened::stays_kept))]
fn settled_text<D: Keeper>(alloc: Global, kept: &mut Kept<D>) -> Result<String, AllocError>
    requires idle { NothingRuns kept.old }
    requires kept { IsKept D.rows kept.old }
    ensures idle { NothingRuns kept.new }
    ensures kept { IsKept D.rows kept.new }
{
    let word = match kept.settle() {
        Ok(()) => "settled",
        Err(_) => "not settled",
    };
    let entries = kept.cluster().entries();
    format!(in alloc; "{word}: {} of {entries}, ", kept.settled())
}

/// What the cluster may be opened from again.
fn base_text(alloc: Global, cluster: &Cluster) -> Result<String, AllocError> {
    let base = cluster.base(alloc)?;
    let rows = rows_text(alloc, "base", base.rows.as_slice())?;
    format!(in alloc; "{rows} at {} after {}, ", base.counter, base.first)
}

/// The answer to an administrator's request or to an ADD, and the key that is in doubt after it.
fn answer_text<D: Keeper>(
    alloc: Global,
    kept: &mut Kept<D>,
    text: &str,
) -> Result<String, AllocError>
    requires idle { NothingRuns kept.old }
    requires kept { IsKept D.rows kept.old }
    ensures idle { NothingRuns kept.new }
    ensures kept { IsKept D.rows kept.new }
{
    match requests::read(alloc, String::from_str(alloc, text)) {
        Some(request) => ran_text(alloc, kept, &request),
        None => Err(AllocError),
    }
}

fn ran_text<D: Keeper>(
    alloc: Global,
    kept: &mut Kept<D>,
    request: &Request,
) -> Result<String, AllocError>
    requires sound { IsSoundRequest request.now }
    requires idle { NothingRuns kept.old }
    requires kept { IsKept D.rows kept.old }
    ensures idle { NothingRuns kept.new }
    ensures kept { IsKept D.rows kept.new }
{
    let (Request::Admin(_) | Request::Add(_)) = request else {
        return String::from_str(alloc, "no such step");
    };
    let word = match &run_alone(alloc, kept, request)? {
        Answer::Done(_) | Answer::Added(_) => "done",
        Answer::Fault => "fault",
        _ => "another answer",
    };
    format!(in alloc; "{word} {}, ", kept.doubted().unwrap_or("-"))
}

fn rows_text(alloc: Global, first: &str, rows: &[Row]) -> Result<String, AllocError> {
    let mut text = String::from_str(alloc, first)?;
    for row in rows {
        let (key, revision, body) = (row.key.as_str(), row.revision, row.body.as_str());
        text.push_str(format!(in alloc; " {key} {revision} {body}")?.as_str())?;
    }
    Ok(text)
}
