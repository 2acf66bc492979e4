//! Sessions over a shared cluster, one after the other, and the rows that they leave.
ghost use Rattle.std.specs.Prelude.{◌≡◌, ◌+◌, None};
ghost use Rattle.ipam_shared.specs.Passes.{IsSamePass, runs_in};

use crate::counting::Counting;
use crate::rows::{FREE, keeper_of, number_of, numbers, rest_of};
use crate::served::{served, share};
use crate::told::Told;
use ipam_daemon::Serves;
use ipam_io::ListGate;
use ipam_serve::Queue;
use ipam_shared::{Keeper, Pass};
use std::alloc::{AllocError, Global};
use std::sync::{Arc, Wait};

/// What stands before the end of each session.
const END: &str = "\n= session ";

/// The most entries that a cluster may be opened with.
const MOST_FIRST: u64 = 1 << 62;

/// The text about sessions, each of which goes up to the line of its end, and about the rows whose keys begin as a
/// line `get START` says. A line `first N` says how many entries there are before them.
pub(crate) fn told<R: Wait>(rt: &R, alloc: Global, steps: &str) -> Result<String, AllocError> {
    let mut told = Told::new(alloc);
    match keeper_of(alloc, FREE, steps) {
        Ok(keeper) => tell(rt, alloc, keeper, steps, &mut told),
        Err(_) => told.push(Err(AllocError)),
    }
    told.into_text()
}

fn tell<R: Wait, D: Keeper + Drop>(rt: &R, alloc: Global, keeper: D, steps: &str, told: &mut Told) {
    let first = number_of(steps, "first ").min(MOST_FIRST);
    let Some((shared, mut pass)) = share(alloc, keeper, first) else {
        told.push_line("not opened");
        return;
    };
    serve_each(rt, alloc, &shared, &mut pass, steps, told);
    let keeper = shared.close(pass).into_keeper();
    if let Some(start) = rest_of(steps, "get ") {
        tell_rows(alloc, keeper, start, told);
    }
}

fn serve_each<R: Wait, S: Serves>(
    rt: &R,
    alloc: Global,
    shared: &S,
    pass: &mut Pass,
    steps: &str,
    told: &mut Told,
)
    requires lock { pass.old.lock ≡ S.id shared.now }
    requires idle { runs_in pass.old ≡ None }
    ensures same { IsSamePass pass.old pass.new }
{
    let mut lines = None;
    for part in steps.split(END) {
        if let Some(lines) = lines {
            serve(rt, alloc, shared, pass, lines, told);
        }
        lines = Some(part);
    }
}

/// Serves the session whose lines these are. A gate stops it at the passes that a line `stop N..` says. With a line
/// `patience` the text has what its patience was asked, too.
fn serve<R: Wait, S: Serves>(
    rt: &R,
    alloc: Global,
    shared: &S,
    pass: &mut Pass,
    lines: &str,
    told: &mut Told,
)
    requires lock { pass.old.lock ≡ S.id shared.now }
    requires idle { runs_in pass.old ≡ None }
    ensures same { IsSamePass pass.old pass.new }
    ensures idle { runs_in pass.new ≡ None }
{
    let (Ok(stops), Ok(queue)) = (
        numbers(alloc, lines, "stop "),
        Arc::new(alloc, Queue::new()),
    ) else {
        told.push(Err(AllocError));
        return;
    };
    let mut gate = ListGate::new(stops);
    let mut patience = Counting::new(queue, pass.slot());
    served(
        rt,
        alloc,
        shared,
        pass,
        &mut gate,
        &mut patience,
        lines,
        told,
    );
    if lines.contains("\npatience\n") {
        told.push(patience.told(alloc));
    }
}

fn tell_rows<D: Keeper + Drop>(alloc: Global, mut keeper: D, start: &str, told: &mut Told) {
    let Ok(rows) = keeper.load() else {
        told.push_line("keeper fault");
        return;
    };
    for row in &rows {
        let (key, revision, body) = (row.key.as_str(), row.revision, row.body.as_str());
        if key.starts_with(start) {
            told.push(format!(in alloc; "{key} {revision} {body}\n"));
        }
    }
}
