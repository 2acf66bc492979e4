ghost use Rattle.std.specs.Prelude.{◌≡◌, true, Some, IfOk, IfNone, OnOk, OnErr};
ghost use Rattle.ipam_records.specs.Word.{answer_in, waits, after_feed};
ghost use Rattle.ipam_model.specs.Requests.{word_of};
ghost use Rattle.ipam_model.specs.SoundRequest.{IsSoundRequest};
ghost use Rattle.ipam_cluster.specs.Running.{running_rest, running_leaves, running_grace, FitsRunning, grace_of, is_over};

use crate::absent::{AbsentRelease, AbsentTurned};
use crate::arms::{
    absent_goes, add_goes, add_this_goes, admin_goes, check_goes, collect_goes, del_goes,
    probe_goes, release_goes,
};
use crate::begun::release_of;
use ipam_assign::{AddProc, AddThisProc, AddThisTurned, AddTurned, ProbeProc, ProbeTurned};
use ipam_collect::{CollectProc, CollectTurned, Grace};
use ipam_model::{Answer, Request};
use ipam_parts::{ReleaseAffinityProc, ReleaseTurned};
use ipam_records::{Call, Heard, Procedure};
use ipam_release::{AdminProc, AdminTurned, CheckProc, CheckTurned, DelProc, DelTurned};
use ipam_text::Text;
use std::alloc::{AllocError, Global};

/// A request that runs: the procedure that serves it, whichever it is.
pub struct Running {
    pub(crate) kept: Kept,
}

impl Drop for Running {
    fn drop(self) {
        let Running { kept: _ } = self;
    }
}

/// The procedure of a request.
#[derive(Drop)]
pub(crate) enum Kept {
    Add(AddProc),
    AddThis(AddThisProc),
    Del(DelProc),
    Check(CheckProc),
    Release(ReleaseAffinityProc),
    /// A release from what is no block.
    Absent(AbsentRelease),
    Collect(CollectProc),
    Admin(AdminProc),
    Probe(ProbeProc),
}

/// Where a reply led what runs.
pub struct RunningTurned {
    pub(crate) turned: Turned,
}

impl Drop for RunningTurned {
    fn drop(self) {
        let RunningTurned { turned: _ } = self;
    }
}

impl RunningTurned {
    fn into_turned(self) -> Turned
        ensures { result ≡ self.turned }
    {
        let RunningTurned { turned } = self;
        turned
    }
}

/// Where a reply led the procedure.
#[derive(Drop)]
pub(crate) enum Turned {
    Add(AddTurned),
    AddThis(AddThisTurned),
    Del(DelTurned),
    Check(CheckTurned),
    Release(ReleaseTurned),
    Absent(AbsentTurned),
    Collect(CollectTurned),
    Admin(AdminTurned),
    Probe(ProbeTurned),
}

impl Running {
    /// What serves the request.
    #[tactic(auto, unfolding(crate::specs::Running::running_rest, crate::specs::Running::running_grace))]
    pub fn of(alloc: Global, request: &Request) -> Result<Running, AllocError>
        requires { IsSoundRequest request.now }
        ensures word { IfOk result (λ r. running_rest r ≡ word_of request.now) }
        ensures grace { IfOk result (λ r. running_grace r ≡ grace_of request.now) }
    {
        match request {
            Request::Add(add) => Ok(Running {
                kept: Kept::Add(AddProc::new(add)?),
            }),
            Request::AddThis(add, address) => Ok(Running {
                kept: Kept::AddThis(AddThisProc::new(add, *address)?),
            }),
            Request::Del(id) => Ok(Running {
                kept: Kept::Del(DelProc::new(alloc, id.as_str())?),
            }),
            Request::Check(id, addresses) => Ok(Running {
                kept: Kept::Check(CheckProc::new(alloc, id.as_str(), addresses.as_slice())?),
            }),
            Request::Release(node, cidr) => release_of(alloc, node.as_str(), *cidr),
            Request::Collect(collect) => Ok(Running {
                kept: Kept::Collect(CollectProc::new(alloc, collect)?),
            }),
            Request::Admin(change) => Ok(Running {
                kept: Kept::Admin(AdminProc::new(alloc, change)?),
            }),
            Request::Probe(probe) => Ok(Running {
                kept: Kept::Probe(ProbeProc::new(probe)?),
            }),
        }
    }

    /// Whether it waits for a second list of live handles.
    #[tactic(auto, unfolding(crate::specs::Running::running_rest), using(crate::proofs::TellingLemmas::waits_telling, crate::proofs::StillLemmas::never_waits))]
    pub fn waits(&self) -> bool
        ensures { result ≡ waits (running_rest self.now) }
    {
        match &self.kept {
            Kept::Collect(p) => p.waits(),
            _ => false,
        }
    }

    /// When a collection's first list was made, and its grace. None where it is no collection.
    #[tactic(auto, unfolding(crate::specs::Running::running_grace))]
    pub fn grace(&self) -> Option<Grace>
        ensures { result ≡ running_grace self.now }
    {
        match &self.kept {
            Kept::Collect(collect) => Some(collect.grace()),
            _ => None,
        }
    }

    /// Takes the second list, which was made at this time, in seconds. On `Err` nothing has changed.
    #[tactic(auto, unfolding(crate::specs::Running::running_rest, crate::specs::Running::running_grace), using(crate::proofs::TellingLemmas::waits_telling, crate::proofs::TellingLemmas::fed_telling, crate::proofs::TellingLemmas::over_late, crate::proofs::StillLemmas::never_waits))]
    pub fn feed(&mut self, alloc: Global, live: &[Text], at: u64) -> Result<(), AllocError>
        requires waits { waits (running_rest self.old) ≡ true }
        requires due { is_over (running_grace self.old) at ≡ true }
        ensures ok { OnOk result (running_rest self.new ≡ after_feed (running_rest self.old) live.now) }
        ensures err { OnErr result (self.new ≡ self.old) }
        ensures grace { running_grace self.new ≡ running_grace self.old }
    {
        match &mut self.kept {
            Kept::Collect(p) => p.feed(alloc, live, at),
            _ => unreachable!(),
        }
    }
}

impl Procedure for Running {
    type Turned = RunningTurned;

    type Answer = Answer;

    ghost rest = { running_rest };

    ghost leaves = { running_leaves };

    ghost fits = { FitsRunning };

    #[tactic(auto, unfolding(crate::specs::Running::running_rest))]
    fn call(&self, alloc: Global) -> Result<Call, AllocError> {
        match &self.kept {
            Kept::Add(p) => p.call(alloc),
            Kept::AddThis(p) => p.call(alloc),
            Kept::Del(p) => p.call(alloc),
            Kept::Check(p) => p.call(alloc),
            Kept::Release(p) => p.call(alloc),
            Kept::Absent(p) => p.call(alloc),
            Kept::Collect(p) => p.call(alloc),
            Kept::Admin(p) => p.call(alloc),
            Kept::Probe(p) => p.call(alloc),
        }
    }

    #[tactic(auto, unfolding(crate::specs::Running::running_rest, crate::specs::Running::running_leaves, crate::specs::Running::FitsRunning))]
    fn took(&self, alloc: Global, hearing: &Heard) -> Result<RunningTurned, AllocError> {
        match &self.kept {
            Kept::Add(p) => Ok(RunningTurned {
                turned: Turned::Add(p.took(alloc, hearing)?),
            }),
            Kept::AddThis(p) => Ok(RunningTurned {
                turned: Turned::AddThis(p.took(alloc, hearing)?),
            }),
            Kept::Del(p) => Ok(RunningTurned {
                turned: Turned::Del(p.took(alloc, hearing)?),
            }),
            Kept::Check(p) => Ok(RunningTurned {
                turned: Turned::Check(p.took(alloc, hearing)?),
            }),
            Kept::Release(p) => Ok(RunningTurned {
                turned: Turned::Release(p.took(alloc, hearing)?),
            }),
            Kept::Absent(p) => Ok(RunningTurned {
                turned: Turned::Absent(p.took(alloc, hearing)?),
            }),
            Kept::Collect(p) => Ok(RunningTurned {
                turned: Turned::Collect(p.took(alloc, hearing)?),
            }),
            Kept::Admin(p) => Ok(RunningTurned {
                turned: Turned::Admin(p.took(alloc, hearing)?),
            }),
            Kept::Probe(p) => Ok(RunningTurned {
                turned: Turned::Probe(p.took(alloc, hearing)?),
            }),
        }
    }

    #[tactic(auto, unfolding(crate::specs::Running::running_rest, crate::specs::Running::running_leaves, crate::specs::Running::FitsRunning, crate::specs::Running::running_grace))]
    fn go(&mut self, turned: RunningTurned) -> Option<Answer>
        requires { FitsRunning self.old turned }
        ensures answer { result ≡ answer_in (running_leaves self.old turned) }
        ensures on { IfNone result (running_rest self.new ≡ running_leaves self.old turned) }
        ensures grace { running_grace self.new ≡ running_grace self.old }
    {
        match turned.into_turned() {
            Turned::Add(turned) => match &mut self.kept {
                Kept::Add(p) => add_goes(p, turned),
                _ => unreachable!(),
            },
            Turned::AddThis(turned) => match &mut self.kept {
                Kept::AddThis(p) => add_this_goes(p, turned),
                _ => unreachable!(),
            },
            Turned::Del(turned) => match &mut self.kept {
                Kept::Del(p) => del_goes(p, turned),
                _ => unreachable!(),
            },
            Turned::Check(turned) => match &mut self.kept {
                Kept::Check(p) => check_goes(p, turned),
                _ => unreachable!(),
            },
            Turned::Release(turned) => match &mut self.kept {
                Kept::Release(p) => release_goes(p, turned),
                _ => unreachable!(),
            },
            Turned::Absent(turned) => match &mut self.kept {
                Kept::Absent(p) => absent_goes(p, turned),
                _ => unreachable!(),
            },
            Turned::Collect(turned) => match &mut self.kept {
                Kept::Collect(p) => collect_goes(p, turned),
                _ => unreachable!(),
            },
            Turned::Admin(turned) => match &mut self.kept {
                Kept::Admin(p) => admin_goes(p, turned),
                _ => unreachable!(),
            },
            Turned::Probe(turned) => match &mut self.kept {
                Kept::Probe(p) => probe_goes(p, turned),
                _ => unreachable!(),
            },
        }
    }
}
