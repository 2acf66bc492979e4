ghost use Rattle.std.specs.Prelude.{◌≡◌, ◌+◌, ◌≤◌, [], nat_le, true, IfOk, IfNone, OnOk, OnErr};
ghost use Rattle.ipam_records.specs.Hearing.{MayHear};
ghost use Rattle.ipam_records.specs.Listing.{rows_of};
ghost use Rattle.ipam_records.specs.Word.{next_call, after_reply, answer_in, waits, after_feed};
ghost use Rattle.ipam_model.specs.Remove.{collect_word, suspects, leaks};
ghost use Rattle.ipam_model.specs.Step.{all_left as every_try};
ghost use Rattle.ipam_collect.specs.Collect.{due_from, grace_in, grace_asked, collect_at, collect_rest, collect_goes, collect_leaves, stage_leaves, stage_fed};
ghost use Rattle.ipam_collect.specs.Frees.{leaks_left};
ghost use Rattle.ipam_collect.specs.Leaks.{AreSoundRows};

use crate::frees::Frees;
use crate::leaks::leaks_of;
use crate::suspect::Suspect;
use crate::suspects::suspects_in;
use crate::tally::Tally;
use ipam_model::{CollectAnswer, CollectRequest, Collected};
use ipam_parts::{FreeingTurned, all_left, listing_in};
use ipam_records::{Call, Heard, Kind, Listing, Procedure};
use ipam_text::{Seq, Text};
use std::alloc::{AllocError, Global};
use std::mem;

/// A collection of the addresses whose handles are in neither of two lists of live ones. Between
/// its two listings of the blocks it waits for the second list.
pub struct CollectProc {
    request: CollectRequest,
    stage: Stage,
}

impl Drop for CollectProc {
    fn drop(self) {
        let CollectProc {
            request: _,
            stage: _,
        } = self;
    }
}

/// When a collection's first list was made, and its grace, both in seconds.
#[derive(Clone, Copy)]
pub struct Grace {
    pub at: u64,
    pub grace: u64,
}

/// What a collection does next.
#[derive(Drop)]
enum Stage {
    /// The blocks are listed.
    Lists,
    /// The second list of live handles is waited for.
    Waits(Found),
    /// The blocks are listed again.
    ListsAgain(FoundTwice),
    Frees(Frees),
}

/// What may leak, as it was listed at the moment.
#[derive(Drop)]
struct Found {
    b1: u64,
    suspects: Seq<Suspect>,
}

/// What may leak, and the second list of live handles.
#[derive(Drop)]
struct FoundTwice {
    b1: u64,
    suspects: Seq<Suspect>,
    live: Seq<Text>,
}

/// Where a reply leads.
#[derive(Drop)]
enum Goes {
    To(Stage),
    /// The freeing goes on.
    Frees(FreeingTurned),
    Answers(CollectAnswer),
}

/// Where a reply led a collection.
#[derive(Drop)]
pub struct CollectTurned {
    goes: Goes,
}

impl CollectProc {
    /// The collection that the request asks for.
    pub fn new(_alloc: Global, request: &CollectRequest) -> Result<CollectProc, AllocError>
        ensures word { IfOk result (λ p. collect_rest p ≡ collect_word request.now) }
        ensures due { IfOk result (λ p. due_from p ≡ request.now.at + request.now.grace) }
        ensures grace { IfOk result (λ p. grace_in p ≡ grace_asked request.now) }
    {
        let request = copied(request)?;
        let stage = Stage::Lists;
        Ok(CollectProc { request, stage })
    }

    /// Whether the second list is waited for.
    pub fn waits(&self) -> bool
        ensures { result ≡ waits (collect_rest self.now) }
    {
        match &self.stage {
            Stage::Waits(_) => true,
            Stage::Lists | Stage::ListsAgain(_) | Stage::Frees(_) => false,
        }
    }

    /// Whether a second list that was made then is late enough. The time is in seconds, by the
    /// clock of the first list's.
    pub fn due(&self, at: u64) -> bool
        ensures { result ≡ nat_le (due_from self.now) at }
    {
        match self.request.at.checked_add(self.request.grace) {
            Some(from) => from <= at,
            None => false,
        }
    }

    /// When the first list was made, and how long the second one must wait.
    pub fn grace(&self) -> Grace
        ensures { result ≡ grace_in self.now }
    {
        Grace {
            at: self.request.at,
            grace: self.request.grace,
        }
    }

    /// Takes the second list. On `Err` nothing has changed.
    pub fn feed(&mut self, alloc: Global, live: &[Text], at: u64) -> Result<(), AllocError>
        requires waits { waits (collect_rest self.old) ≡ true }
        requires due { due_from self.old ≤ at }
        ensures ok { OnOk result (collect_rest self.new ≡ after_feed (collect_rest self.old) live.now) }
        ensures err { OnErr result (self.new ≡ self.old) }
        ensures grace { grace_in self.new ≡ grace_in self.old }
    {
        let live = copied_list(alloc, live)?;
        let stage = mem::replace(&mut self.stage, Stage::Lists);
        self.stage = fed(stage, live);
        Ok(())
    }
}

impl Procedure for CollectProc {
    type Turned = CollectTurned;

    type Answer = CollectAnswer;

    ghost rest = { collect_rest };

    ghost leaves = { collect_leaves };

    ghost fits = { λ p turned. Unit {0} };

    fn call(&self, alloc: Global) -> Result<Call, AllocError> {
        match &self.stage {
            Stage::Lists | Stage::ListsAgain(_) => Ok(Call::List(Kind::Block)),
            Stage::Waits(_) => unreachable!(),
            Stage::Frees(frees) => frees.call(alloc),
        }
    }

    fn took(&self, alloc: Global, hearing: &Heard) -> Result<CollectTurned, AllocError> {
        let listing = listing_in(&hearing.reply);
        match &self.stage {
            Stage::Lists => {
                let suspects = suspects_in(alloc, &self.request, &listing)?;
                let goes = Goes::To(Stage::Waits(Found::new(hearing.moment, suspects)));
                Ok(CollectTurned { goes })
            }
            Stage::Waits(_) => unreachable!(),
            Stage::ListsAgain(found) => {
                let goes = found.listed(alloc, hearing.moment, &listing)?;
                Ok(CollectTurned { goes })
            }
            Stage::Frees(frees) => {
                let goes = Goes::Frees(frees.took(alloc, hearing)?);
                Ok(CollectTurned { goes })
            }
        }
    }

    fn go(&mut self, turned: CollectTurned) -> Option<CollectAnswer>
        ensures answer { result ≡ answer_in (collect_leaves self.old turned) }
        ensures on { IfNone result (collect_rest self.new ≡ collect_leaves self.old turned) }
        ensures grace { grace_in self.new ≡ grace_in self.old }
    {
        match turned.goes {
            Goes::To(stage) => {
                self.stage = stage;
                None
            }
            Goes::Frees(turned) => freed(&self.request, &mut self.stage, turned),
            Goes::Answers(answer) => Some(answer),
        }
    }
}

impl Found {
    fn new(b1: u64, suspects: Seq<Suspect>) -> Found
        ensures b1 { result.b1 ≡ b1 }
        ensures suspects { result.suspects ≡ suspects }
    {
        Found { b1, suspects }
    }

    fn with_list(self, live: Seq<Text>) -> FoundTwice
        ensures b1 { result.b1 ≡ self.b1 }
        ensures suspects { result.suspects ≡ self.suspects }
        ensures live { result.live ≡ live }
    {
        FoundTwice {
            b1: self.b1,
            suspects: self.suspects,
            live,
        }
    }
}

impl FoundTwice {
    /// Where the second listing of the blocks leads.
    fn listed(&self, alloc: Global, moment: u64, listing: &Listing) -> Result<Goes, AllocError>
        requires { AreSoundRows (rows_of listing.now) }
        ensures { IfOk result (λ goes. (p : CollectProc) → collect_goes p goes
            ≡ leaks_left self.now.b1 moment ([], leaks self.now.suspects self.now.live (rows_of listing.now)) every_try) }
    {
        let live = self.live.as_slice();
        let leaks = leaks_of(alloc, self.suspects.as_slice(), live, listing)?;
        let tally = Tally::new(alloc, leaks)?;
        Ok(begun(self.b1, moment, tally))
    }
}

/// Where a collection begins to free.
fn begun(b1: u64, b2: u64, tally: Tally) -> Goes
    ensures { (p : CollectProc) → collect_goes p result ≡ leaks_left b1 b2 tally every_try }
{
    match tally.first() {
        Some(leak) => {
            let freeing = leak.freeing(all_left());
            let frees = Frees::new(b1, b2, tally, freeing);
            Goes::To(Stage::Frees(frees))
        }
        None => {
            let mut tally = tally;
            let items = tally.take_items();
            Goes::Answers(CollectAnswer::Collected(Collected { b1, b2, items }))
        }
    }
}

/// The stage after the wait, once the second list is there.
fn fed(stage: Stage, live: Seq<Text>) -> Stage
    ensures { result ≡ stage_fed stage live }
{
    match stage {
        Stage::Waits(found) => Stage::ListsAgain(found.with_list(live)),
        other => other,
    }
}

/// The freeing goes where a reply led it.
fn freed(
    request: &CollectRequest,
    stage: &mut Stage,
    turned: FreeingTurned,
) -> Option<CollectAnswer>
    ensures answer { result ≡ answer_in (stage_leaves request.now stage.old turned) }
    ensures on { IfNone result (collect_at request.now stage.new ≡ stage_leaves request.now stage.old turned) }
{
    match stage {
        Stage::Frees(frees) => frees.go(turned),
        Stage::Lists | Stage::Waits(_) | Stage::ListsAgain(_) => None,
    }
}

fn copied(request: &CollectRequest) -> Result<CollectRequest, AllocError>
    ensures { IfOk result (λ copy. copy ≡ request.now) }
{
    let live = request.live.clone()?;
    let scope = copied_scope(&request.scope)?;
    Ok(CollectRequest {
        live,
        at: request.at,
        grace: request.grace,
        scope,
    })
}

fn copied_scope(scope: &Option<(Text, Text)>) -> Result<Option<(Text, Text)>, AllocError>
    ensures { IfOk result (λ copy. copy ≡ scope.now) }
{
    match scope {
        Some((network, node)) => Ok(Some((network.clone()?, node.clone()?))),
        None => Ok(None),
    }
}

fn copied_list(alloc: Global, live: &[Text]) -> Result<Seq<Text>, AllocError>
    ensures { IfOk result (λ copy. copy ≡ live.now) }
{
    let mut copy = Seq::new(alloc);
    for id in live {
        copy.push(id.clone()?)?;
    }
    Ok(copy)
}
