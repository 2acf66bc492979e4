//! Each kind of request goes where a reply led it, and its answer becomes that of the
//! cluster.
ghost use Rattle.std.specs.Prelude.{◌≡◌, IfNone};
ghost use Rattle.ipam_records.specs.Word.{answer_in};
ghost use Rattle.ipam_model.specs.Told.{of_add, of_add_this, of_del, of_check, of_release, of_collect, of_admin, of_probe};
ghost use Rattle.ipam_assign.specs.Adding.{add_rest, add_leaves};
ghost use Rattle.ipam_assign.specs.AddThis.{this_rest, this_leaves};
ghost use Rattle.ipam_assign.specs.Probe.{probe_rest, probe_leaves};
ghost use Rattle.ipam_parts.specs.Release.{release_rest, release_leaves};
ghost use Rattle.ipam_collect.specs.Collect.{collect_rest, collect_leaves, grace_in};
ghost use Rattle.ipam_release.specs.Admin.{admin_rest, admin_leaves};
ghost use Rattle.ipam_release.specs.Check.{check_rest, check_leaves};
ghost use Rattle.ipam_release.specs.Del.{del_rest, del_leaves};
ghost use Rattle.ipam_cluster.specs.Absent.{absent_rest, absent_leaves};
ghost use Rattle.ipam_cluster.specs.Running.{telling};

use crate::absent::{AbsentRelease, AbsentTurned};
use ipam_assign::{AddProc, AddThisProc, AddThisTurned, AddTurned, ProbeProc, ProbeTurned};
use ipam_collect::{CollectProc, CollectTurned};
use ipam_model::Answer;
use ipam_parts::{ReleaseAffinityProc, ReleaseTurned};
use ipam_records::Procedure;
use ipam_release::{AdminProc, AdminTurned, CheckProc, CheckTurned, DelProc, DelTurned};

/// An ADD goes where a reply led it.
#[tactic(auto, using(crate::proofs::TellingLemmas::arm_ends, crate::proofs::TellingLemmas::arm_goes_on))]
pub(crate) fn add_goes(p: &mut AddProc, turned: AddTurned) -> Option<Answer>
    ensures answer { result ≡ answer_in (telling of_add (add_leaves p.old turned)) }
    ensures on { IfNone result (add_rest p.new ≡ add_leaves p.old turned) }
{
    match p.go(turned) {
        Some(answer) => Some(Answer::from(answer)),
        None => None,
    }
}

/// An ADD of one address goes where a reply led it.
#[tactic(auto, using(crate::proofs::TellingLemmas::arm_ends, crate::proofs::TellingLemmas::arm_goes_on))]
pub(crate) fn add_this_goes(p: &mut AddThisProc, turned: AddThisTurned) -> Option<Answer>
    ensures answer { result ≡ answer_in (telling of_add_this (this_leaves p.old turned)) }
    ensures on { IfNone result (this_rest p.new ≡ this_leaves p.old turned) }
{
    match p.go(turned) {
        Some(answer) => Some(Answer::from(answer)),
        None => None,
    }
}

/// A DEL goes where a reply led it.
#[tactic(auto, using(crate::proofs::TellingLemmas::arm_ends, crate::proofs::TellingLemmas::arm_goes_on))]
pub(crate) fn del_goes(p: &mut DelProc, turned: DelTurned) -> Option<Answer>
    ensures answer { result ≡ answer_in (telling of_del (del_leaves p.old turned)) }
    ensures on { IfNone result (del_rest p.new ≡ del_leaves p.old turned) }
{
    match p.go(turned) {
        Some(answer) => Some(Answer::from(answer)),
        None => None,
    }
}

/// A CHECK goes where a reply led it.
#[tactic(auto, using(crate::proofs::TellingLemmas::arm_ends, crate::proofs::TellingLemmas::arm_goes_on))]
pub(crate) fn check_goes(p: &mut CheckProc, turned: CheckTurned) -> Option<Answer>
    ensures answer { result ≡ answer_in (telling of_check (check_leaves p.old turned)) }
    ensures on { IfNone result (check_rest p.new ≡ check_leaves p.old turned) }
{
    match p.go(turned) {
        Some(answer) => Some(Answer::from(answer)),
        None => None,
    }
}

/// A release goes where a reply led it.
#[tactic(auto, using(crate::proofs::TellingLemmas::arm_ends, crate::proofs::TellingLemmas::arm_goes_on))]
pub(crate) fn release_goes(p: &mut ReleaseAffinityProc, turned: ReleaseTurned) -> Option<Answer>
    ensures answer { result ≡ answer_in (telling of_release (release_leaves p.old turned)) }
    ensures on { IfNone result (release_rest p.new ≡ release_leaves p.old turned) }
{
    match p.go(turned) {
        Some(answer) => Some(Answer::from(answer)),
        None => None,
    }
}

/// A release that finds nothing is answered.
#[tactic(auto, using(crate::proofs::TellingLemmas::arm_ends, crate::proofs::TellingLemmas::absent_ends))]
pub(crate) fn absent_goes(p: &mut AbsentRelease, turned: AbsentTurned) -> Option<Answer>
    ensures answer { result ≡ answer_in (telling of_release (absent_leaves p.old turned)) }
    ensures on { IfNone result (absent_rest p.new ≡ absent_leaves p.old turned) }
{
    match p.go(turned) {
        Some(answer) => Some(Answer::from(answer)),
        None => None,
    }
}

/// A collection goes where a reply led it.
#[tactic(auto, using(crate::proofs::TellingLemmas::arm_ends, crate::proofs::TellingLemmas::arm_goes_on))]
pub(crate) fn collect_goes(p: &mut CollectProc, turned: CollectTurned) -> Option<Answer>
    ensures answer { result ≡ answer_in (telling of_collect (collect_leaves p.old turned)) }
    ensures on { IfNone result (collect_rest p.new ≡ collect_leaves p.old turned) }
    ensures grace { grace_in p.new ≡ grace_in p.old }
{
    match p.go(turned) {
        Some(answer) => Some(Answer::from(answer)),
        None => None,
    }
}

/// A change by an operator goes where a reply led it.
#[tactic(auto, using(crate::proofs::TellingLemmas::arm_ends, crate::proofs::TellingLemmas::arm_goes_on))]
pub(crate) fn admin_goes(p: &mut AdminProc, turned: AdminTurned) -> Option<Answer>
    ensures answer { result ≡ answer_in (telling of_admin (admin_leaves p.old turned)) }
    ensures on { IfNone result (admin_rest p.new ≡ admin_leaves p.old turned) }
{
    match p.go(turned) {
        Some(answer) => Some(Answer::from(answer)),
        None => None,
    }
}

/// A probe goes where a reply led it.
#[tactic(auto, using(crate::proofs::TellingLemmas::arm_ends, crate::proofs::TellingLemmas::arm_goes_on))]
pub(crate) fn probe_goes(p: &mut ProbeProc, turned: ProbeTurned) -> Option<Answer>
    ensures answer { result ≡ answer_in (telling of_probe (probe_leaves p.old turned)) }
    ensures on { IfNone result (probe_rest p.new ≡ probe_leaves p.old turned) }
{
    match p.go(turned) {
        Some(answer) => Some(Answer::from(answer)),
        None => None,
    }
}
