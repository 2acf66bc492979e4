// Keepers in memory, and clusters over them.
ghost use Rattle.std.specs.Prelude.{◌≡◌, ◌+◌, ◌≤◌, ◌^◌, IfSome};
ghost use Rattle.ipam_shared.specs.Solo.{NothingRuns};
ghost use Rattle.ipam_shared.specs.Passes.{IsNewlyKept};

use ipam_keeper::{Keeper, MemoryKeeper};
use ipam_shared::{Kept, Pass, Shared};
use std::alloc::{AllocError, Global};
use std::sync::Wait;

/// Eight addresses in blocks of four.
pub const SMALL: &str =
    r#"{"pools":[{"blockSize":30,"cidr":"10.0.0.0/29","disabled":false,"name":"p"}]}"#;

/// 1,024 addresses in blocks of 16.
pub const MANY: &str =
    r#"{"pools":[{"blockSize":28,"cidr":"10.0.0.0/22","disabled":false,"name":"p"}]}"#;

/// 4,096 addresses in blocks of 64.
pub const LARGE: &str =
    r#"{"pools":[{"blockSize":26,"cidr":"10.0.0.0/20","disabled":false,"name":"p"}]}"#;

/// The keeper with a row of these pools, or with no row where there are none.
fn with_pools(mut keeper: MemoryKeeper, pools: &str) -> Result<MemoryKeeper, AllocError> {
    if pools.is_empty() || keeper.put("pools", 1, pools).is_ok() {
        Ok(keeper)
    } else {
        Err(AllocError)
    }
}

/// A keeper of these pools. Each seventh of so many writes fails, each second one of these with its change done.
pub fn failing_now_and_then(
    alloc: Global,
    pools: &str,
    writes: u64,
) -> Result<MemoryKeeper, AllocError> {
    let mut failing = Vec::new(alloc);
    for number in 1..writes {
        if number % 7 == 0 {
            failing.push((number, number % 2 == 0))?;
        }
    }
    with_pools(MemoryKeeper::new(Vec::new(alloc), failing), pools)
}

/// A keeper of these pools, of which the writes and settlings fail that the words say: `-N` a write whose change is not
/// made, `+N` one whose change is, and `sN` a settling. The first write is that of the pools, if any, and the first
/// settling that of the opening.
pub fn failing_at(alloc: Global, pools: &str, words: &str) -> Result<MemoryKeeper, AllocError> {
    let mut failing = Vec::new(alloc);
    let mut unsettled = Vec::new(alloc);
    for word in words.split(' ') {
        let number = word.get(1..).unwrap_or("").parse().unwrap_or(0);
        if word.starts_with('s') {
            unsettled.push(number)?;
        } else if word.starts_with('-') || word.starts_with('+') {
            failing.push((number, word.starts_with('+')))?;
        }
    }
    let keeper = MemoryKeeper::new(Vec::new(alloc), failing).failing_to_settle(unsettled);
    with_pools(keeper, pools)
}

/// What the keeper has, opened after so many entries. None where its rows are not opened.
pub fn open<D: Keeper + Drop>(alloc: Global, keeper: D, first: u64) -> Option<Kept<D>>
    requires { first ≤ 2 ^ 62 }
    ensures kept { IfSome result (IsNewlyKept D.rows D.settled) }
    ensures idle { IfSome result NothingRuns }
{
    match Kept::open(alloc, keeper, first) {
        Ok(kept) => Some(kept),
        Err(_) => None,
    }
}

/// What the keeper has, opened and shared, with the first pass. None where its rows are not opened, or there is no
/// memory.
pub fn share<D: Keeper + Drop>(alloc: Global, keeper: D) -> Option<(Shared<D>, Pass)>
    ensures { IfSome result (λ opened. opened.1.lock ≡ opened.0) }
{
    match Shared::new(alloc, open(alloc, keeper, 0)?) {
        Ok(opened) => Some(opened),
        Err(kept) => {
            drop(kept.into_keeper());
            None
        }
    }
}

/// The keeper behind the cluster. All passes were joined into this one: else it waits for ever, which the
/// limit of the program's time shows.
pub fn close<R: Wait, D: Keeper>(rt: &R, shared: Shared<D>, pass: Pass) -> D
    requires { pass.lock ≡ shared }
{
    wait_for_last(rt, &pass);
    shared.close(pass).into_keeper()
}

fn wait_for_last<R: Wait>(rt: &R, pass: &Pass)
    ensures { pass.now.joined + 1 ≡ pass.now.made }
{
    if pass.is_last() {
        return;
    }
    for _ in rt.forever() {}
    unreachable!()
}
