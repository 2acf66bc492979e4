ghost use Rattle.std.specs.Prelude.{◌≡◌, IfOk, IfNone};
ghost use Rattle.ipam_records.specs.Said.{said};
ghost use Rattle.ipam_records.specs.Word.{next_call, after_reply, answer_in};
ghost use Rattle.ipam_records.specs.Hearing.{MayHear};
ghost use Rattle.ipam_model.specs.Admin.{admin_word, admin_stops, key_changed};
ghost use Rattle.ipam_model.specs.Step.{as_word};
ghost use Rattle.ipam_parts.specs.Raising.{put_at};
ghost use Rattle.ipam_release.specs.Admin.{admin_again, admin_written_at, admin_at, admin_rest, admin_goes, admin_leaves};
ghost use Rattle.ipam_release.specs.declared.admin.Stage.TheVariants.{Reads};

use crate::change::{Change, copied};
use ipam_model::{Admin, AdminAnswer, LOST_RACES_MAX, Left};
use ipam_parts::{WriteEnd, after_lost, all_left, revision_in};
use ipam_records::{Call, Heard, Key, Procedure, Record};
use std::alloc::{AllocError, Global};

/// A change of the pools, the reservations or the configuration: the record is read, changed and
/// written, even if the change makes no difference.
pub struct AdminProc {
    request: Admin,
    left: Left,
    stage: Stage,
}

impl Drop for AdminProc {
    fn drop(self) {
        let AdminProc {
            request: _,
            left: _,
            stage: _,
        } = self;
    }
}

/// The call that is made next.
#[derive(Drop)]
enum Stage {
    /// The record is read.
    Reads,
    Writes(Writes),
}

/// The record as it is to be written, at the revision at which it was found, or anew where it was
/// missing.
#[derive(Drop)]
struct Writes {
    new: Record,
    revision: Option<u64>,
}

/// Where a reply leads.
#[derive(Drop)]
enum Goes {
    To(Stage),
    /// A race was lost, and this is left.
    Again(Left),
    Answers(AdminAnswer),
}

/// Where a reply led a change.
#[derive(Drop)]
pub struct AdminTurned {
    goes: Goes,
}

impl AdminProc {
    /// The change that the request asks for.
    #[tactic(auto, using(crate::proofs::AdminLemmas::begins))]
    pub fn new(_alloc: Global, request: &Admin) -> Result<AdminProc, AllocError>
        ensures { IfOk result (λ p. admin_rest p ≡ admin_word request.now) }
    {
        let request = copied(request)?;
        Ok(AdminProc {
            request,
            left: all_left(),
            stage: Stage::Reads,
        })
    }

    /// Where what was read leads.
    fn read(&self, alloc: Global, hearing: &Heard) -> Result<Goes, AllocError>
        ensures { IfOk result (λ goes. admin_goes self.now goes
            ≡ after_reply (admin_at self.now.request self.now.left Reads) hearing.now.moment (said hearing.now.reply)) }
    {
        match Change::of(alloc, &self.request, &hearing.reply)? {
            Change::Becomes(new) => {
                let writes = Writes::new(new, revision_in(&hearing.reply));
                Ok(Goes::To(Stage::Writes(writes)))
            }
            Change::Refuses(number, name) => {
                Ok(Goes::Answers(AdminAnswer::Refused(number, name)))
            }
        }
    }

    /// Where a write leads that was answered so.
    fn written(&self, hearing: &Heard) -> Goes
        ensures { admin_goes self.now result ≡ as_word admin_stops (admin_written_at self.now.request self.now.left (said hearing.now.reply)) }
    {
        match WriteEnd::of(&hearing.reply) {
            WriteEnd::Took(revision) => Goes::Answers(AdminAnswer::Done(revision)),
            WriteEnd::Lost => self.lost(),
            WriteEnd::Full => Goes::Answers(AdminAnswer::Full),
            WriteEnd::Spent => Goes::Answers(AdminAnswer::Spent),
        }
    }

    /// Where a lost race leads.
    #[tactic(auto, using(ipam_parts::proofs::TryLaws::lost_goes))]
    fn lost(&self) -> Goes
        ensures { admin_goes self.now result ≡ as_word admin_stops (admin_again self.now.request self.now.left) }
    {
        match after_lost(self.left) {
            Ok(left) => Goes::Again(left),
            Err(_) => Goes::Answers(AdminAnswer::Again(LOST_RACES_MAX)),
        }
    }
}

impl Writes {
    fn new(new: Record, revision: Option<u64>) -> Writes
        ensures new { result.new ≡ new }
        ensures revision { result.revision ≡ revision }
    {
        Writes { new, revision }
    }

    fn call(&self) -> Result<Call, AllocError>
        ensures { IfOk result (λ call. call ≡ put_at self.now.revision self.now.new) }
    {
        let new = self.new.clone()?;
        match self.revision {
            Some(revision) => Ok(Call::Update(new, revision)),
            None => Ok(Call::Create(new)),
        }
    }
}

impl Procedure for AdminProc {
    type Turned = AdminTurned;

    type Answer = AdminAnswer;

    ghost rest = { admin_rest };

    ghost leaves = { admin_leaves };

    ghost fits = { λ p turned. Unit {0} };

    fn call(&self, _alloc: Global) -> Result<Call, AllocError> {
        match &self.stage {
            Stage::Reads => Ok(Call::Get(key_changed(&self.request))),
            Stage::Writes(writes) => writes.call(),
        }
    }

    fn took(&self, alloc: Global, hearing: &Heard) -> Result<AdminTurned, AllocError> {
        match &self.stage {
            Stage::Reads => {
                let goes = self.read(alloc, hearing)?;
                Ok(AdminTurned { goes })
            }
            Stage::Writes(_) => {
                let goes = self.written(hearing);
                Ok(AdminTurned { goes })
            }
        }
    }

    fn go(&mut self, turned: AdminTurned) -> Option<AdminAnswer> {
        match turned.goes {
            Goes::To(stage) => {
                self.stage = stage;
                None
            }
            Goes::Again(left) => {
                self.left = left;
                self.stage = Stage::Reads;
                None
            }
            Goes::Answers(answer) => Some(answer),
        }
    }
}

/// The key of the record that is changed.
fn key_changed(request: &Admin) -> Key
    ensures { result ≡ key_changed request.now }
{
    match request {
        Admin::Pool(_) | Admin::Disable(_, _) => Key::Pools,
        Admin::Reserve(_) | Admin::Unreserve(_) => Key::Reservations,
        Admin::Config(_) => Key::Config,
    }
}
