ghost use Rattle.std.specs.Prelude.{◌≡◌, Some, IfOk};
ghost use Rattle.ipam_resources.specs.Printed.{numbered_refusal, answer_refusal};

use ipam_model::Answer;
use ipam_text::Text;
use std::alloc::AllocError;

/// Why the change of a resource is refused.
#[derive(Debug, Drop)]
pub enum Refusal {
    /// A pool of its name is there, with another CIDR or size.
    NameTaken,
    /// It shares addresses with the pool of this name.
    Overlaps(Text),
    /// The family has no slots of the size.
    BlockSize,
    /// The pool is smaller than one slot.
    Prefix,
    /// There are as many pools as there may be.
    TooManyPools,
    /// There are as many reservations as there may be.
    TooManyReservations,
    /// There is no room for one more record.
    Full,
    /// There are no more revisions.
    Spent,
}

impl Refusal {
    /// The refusal that the answer is, where the change of a resource is answered so.
    pub fn of(answer: &Answer) -> Result<Option<Refusal>, AllocError>
        ensures { IfOk result (λ found. found ≡ answer_refusal answer.now) }
    {
        match answer {
            Answer::Refused(number, name) => numbered(*number, name),
            Answer::Full => Ok(Some(Refusal::Full)),
            Answer::Spent => Ok(Some(Refusal::Spent)),
            _ => Ok(None),
        }
    }
}

#[tactic(auto, unfolding(crate::specs::Printed::numbered_refusal))]
fn numbered(number: u8, name: &Text) -> Result<Option<Refusal>, AllocError>
    ensures { IfOk result (λ found. found ≡ numbered_refusal number name.now) }
{
    match number {
        1 => Ok(Some(Refusal::NameTaken)),
        2 => overlaps(name),
        3 => Ok(Some(Refusal::BlockSize)),
        4 => Ok(Some(Refusal::Prefix)),
        5 => Ok(Some(Refusal::TooManyPools)),
        7 => Ok(Some(Refusal::TooManyReservations)),
        _ => Ok(None),
    }
}

fn overlaps(name: &Text) -> Result<Option<Refusal>, AllocError>
    ensures { IfOk result (λ found. found ≡ Some (Refusal.Overlaps name.now)) }
{
    let name = name.clone()?;
    Ok(Some(Refusal::Overlaps(name)))
}
