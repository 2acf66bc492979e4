ghost use Rattle.std.specs.Prelude.{◌≡◌, ◌||◌, ◌++◌, ◌∷◌, [], true, IfOk, IfNone, Some};
ghost use Rattle.ipam_records.specs.Hearing.{MayHear};
ghost use Rattle.ipam_records.specs.Said.{said};
ghost use Rattle.ipam_records.specs.Word.{next_call as asked_for, after_reply, answer_in};
ghost use Rattle.ipam_choice.specs.Picked.{pick_as};
ghost use Rattle.ipam_choice.specs.Viewed.{asked_of};
ghost use Rattle.ipam_model.specs.Add.{name_in_place};
ghost use Rattle.ipam_model.specs.Look.{asked_of_probe, probe_word};
ghost use Rattle.ipam_assign.specs.Probe.{turn_family, probe_rest, probe_on, probe_goes, probe_leaves, after_probe_scan, first_turn};
ghost use Rattle.ipam_assign.specs.declared.scanning.Stage.TheVariants.{ReadsConfig};

use crate::scanning::{Learned, Scanned, Scanning};
use ipam_addr::Family;
use ipam_choice::{Picked, Wanted};
use ipam_model::{ProbeAnswer, ProbeRequest, Scan};
use ipam_records::{Call, Heard, Procedure};
use ipam_text::{Seq, Text};
use std::alloc::{AllocError, Global};

/// A probe: whether an address of each wanted family could be given, IPv4 first. It writes nothing.
pub struct ProbeProc {
    request: ProbeRequest,
    turn: Turn,
    scanning: Scanning,
}

impl Drop for ProbeProc {
    fn drop(self) {
        let ProbeProc {
            request: _,
            turn: _,
            scanning: _,
        } = self;
    }
}

/// Which of the wanted families is looked at.
#[derive(Clone, Copy)]
enum Turn {
    /// The only one.
    Only(Family),
    /// IPv4, and IPv6 after it.
    First,
    /// IPv6, after what was read for IPv4.
    Second(Scan),
}

/// Where a reply leads.
#[derive(Drop)]
enum Goes {
    Learned(Learned),
    /// IPv4 has an address, and IPv6 is looked at.
    Next(Scan),
    Answers(ProbeAnswer),
}

/// Where a reply led a probe.
#[derive(Drop)]
pub struct ProbeTurned {
    goes: Goes,
}

impl ProbeProc {
    /// The probe that the request asks for, of one family at least.
    #[tactic(auto, using(crate::proofs::ProbeLemmas::begins))]
    pub fn new(probe: &ProbeRequest) -> Result<ProbeProc, AllocError>
        requires { (probe.now.ipv4 || probe.now.ipv6) ≡ true }
        ensures { IfOk result (λ p. probe_rest p ≡ probe_word probe.now) }
    {
        let request = probe.clone()?;
        let turn = turn_for(request.ipv4, request.ipv6);
        let begun = ProbeProc::begun(request, turn);
        Ok(begun)
    }

    fn begun(request: ProbeRequest, turn: Turn) -> ProbeProc
        ensures request { result.request ≡ request }
        ensures turn { result.turn ≡ turn }
        ensures stage { result.scanning.stage ≡ ReadsConfig }
    {
        ProbeProc {
            request,
            turn,
            scanning: Scanning::new(),
        }
    }

    fn family(&self) -> Family
        ensures { result ≡ turn_family self.now.turn }
    {
        match self.turn {
            Turn::Only(family) => family,
            Turn::First => Family::V4,
            Turn::Second(_) => Family::V6,
        }
    }

    fn names(&self) -> &[Text]
        ensures { result.now ≡ (asked_of_probe self.now.request (turn_family self.now.turn)).names }
    {
        match self.family() {
            Family::V4 => self.request.pools4.as_slice(),
            Family::V6 => self.request.pools6.as_slice(),
        }
    }

    fn wanted(&self) -> Wanted<'_>
        ensures { asked_of result ≡ asked_of_probe self.now.request (turn_family self.now.turn) }
    {
        Wanted {
            node: self.request.node.as_str(),
            family: self.family(),
            names: self.names(),
            labels: self.request.labels.as_slice(),
            one_address: false,
        }
    }

    /// Where what was picked leads.
    #[tactic(auto, using(crate::proofs::ProbeLemmas::slot_goes))]
    fn picked(&self, alloc: Global, scan: Scan, picked: &Picked) -> Result<Goes, AllocError>
        ensures { IfOk result (λ goes. probe_goes self.now goes ≡ after_probe_scan self.now.request self.now.turn (scan, pick_as picked.now)) }
    {
        match picked {
            Picked::Nothing => Ok(Goes::Answers(ProbeAnswer::Exhausted(scan))),
            Picked::NoPool(place) => {
                let name = name_in(alloc, self.names(), *place)?;
                Ok(Goes::Answers(ProbeAnswer::NoPool(name, scan.p)))
            }
            Picked::Slot(_) => {
                let goes = self.has_one(alloc, scan)?;
                Ok(goes)
            }
        }
    }

    /// The family has an address.
    #[tactic(auto, unfolding(ipam_model::specs::Look::probe_each))]
    fn has_one(&self, alloc: Global, scan: Scan) -> Result<Goes, AllocError>
        ensures { IfOk result (λ goes. probe_goes self.now goes ≡ probe_on self.now.request self.now.turn scan) }
    {
        match self.turn {
            Turn::First => Ok(Goes::Next(scan)),
            Turn::Only(_) => {
                let mut scans = Seq::new(alloc);
                scans.push(scan)?;
                Ok(Goes::Answers(ProbeAnswer::Ready(scans)))
            }
            Turn::Second(first) => {
                let mut scans = Seq::new(alloc);
                scans.push(first)?;
                scans.push(scan)?;
                Ok(Goes::Answers(ProbeAnswer::Ready(scans)))
            }
        }
    }
}

impl Procedure for ProbeProc {
    type Turned = ProbeTurned;

    type Answer = ProbeAnswer;

    ghost rest = { probe_rest };

    ghost leaves = { probe_leaves };

    ghost fits = { λ p turned. Unit {0} };

    #[tactic(auto, using(crate::proofs::ProbeLemmas::asks))]
    fn call(&self, _alloc: Global) -> Result<Call, AllocError> {
        Ok(self.scanning.call())
    }

    #[tactic(auto, using(crate::proofs::ProbeLemmas::hears))]
    fn took(&self, alloc: Global, hearing: &Heard) -> Result<ProbeTurned, AllocError> {
        let wanted = self.wanted();
        match self.scanning.took(alloc, &wanted, hearing)? {
            Scanned::Learned(learned) => Ok(ProbeTurned {
                goes: Goes::Learned(learned),
            }),
            Scanned::Chosen(scan, picked) => {
                let goes = self.picked(alloc, scan, &picked)?;
                Ok(ProbeTurned { goes })
            }
        }
    }

    #[tactic(auto, using(crate::proofs::ProbeLemmas::goes_on))]
    fn go(&mut self, turned: ProbeTurned) -> Option<ProbeAnswer> {
        match turned.goes {
            Goes::Learned(learned) => {
                self.scanning.go(learned);
                None
            }
            Goes::Next(scan) => {
                self.turn = Turn::Second(scan);
                self.scanning = Scanning::new();
                None
            }
            Goes::Answers(answer) => Some(answer),
        }
    }
}

fn turn_for(ipv4: bool, ipv6: bool) -> Turn
    ensures { result ≡ first_turn ipv4 ipv6 }
{
    if ipv4 && ipv6 {
        Turn::First
    } else if ipv6 {
        Turn::Only(Family::V6)
    } else {
        Turn::Only(Family::V4)
    }
}

/// A copy of the name at the place.
fn name_in(alloc: Global, names: &[Text], place: usize) -> Result<Text, AllocError>
    ensures { IfOk result (λ name. name ≡ name_in_place names.now place) }
{
    match names.get(place) {
        Some(name) => name.clone(),
        None => Text::copied(alloc, ""),
    }
}
