ghost use Rattle.std.specs.Prelude.{◌≡◌, map, IfOk};
ghost use Rattle.std.specs.List.{AllZip};
ghost use Rattle.ipam_select.specs.Formula.{formula, formulas};

use crate::selector::Selector;
use ipam_text::Text;
use std::alloc::{AllocError, Global};

impl Selector {
    /// A copy of the selector, in memory of its own.
    #[cycle(copy)]
    pub fn copy(&self, alloc: Global) -> Result<Selector, AllocError>
        ensures { IfOk result (λ copied. formula copied ≡ formula self.now) }
    {
        match self {
            Selector::All => Ok(Selector::All),
            Selector::Has(key) => Ok(Selector::Has(key.clone()?)),
            Selector::Not(member) => Ok(Selector::Not(copied_member(alloc, member)?)),
            Selector::And(members) => Ok(Selector::And(copied(alloc, members)?)),
            Selector::Or(members) => Ok(Selector::Or(copied(alloc, members)?)),
            Selector::In(key, values) => {
                let (key, values) = copied_choice(alloc, key, values)?;
                Ok(Selector::In(key, values))
            }
            Selector::Is(key, value) => {
                let (key, value) = copied_pair(key, value)?;
                Ok(Selector::Is(key, value))
            }
            Selector::Contains(key, part) => {
                let (key, part) = copied_pair(key, part)?;
                Ok(Selector::Contains(key, part))
            }
            Selector::Starts(key, part) => {
                let (key, part) = copied_pair(key, part)?;
                Ok(Selector::Starts(key, part))
            }
            Selector::Ends(key, part) => {
                let (key, part) = copied_pair(key, part)?;
                Ok(Selector::Ends(key, part))
            }
        }
    }
}

#[cycle(copy)]
fn copied_member(alloc: Global, member: &Selector) -> Result<Box<Selector>, AllocError>
    ensures { IfOk result (λ copied. formula copied.value ≡ formula member.now) }
{
    Ok(Box::new(alloc, member.copy(alloc)?)?)
}

#[cycle(copy)]
fn copied(alloc: Global, members: &[Selector]) -> Result<Vec<Selector>, AllocError>
    ensures { IfOk result (λ all. map formula all.items ≡ map formula members.now) }
{
    let mut all = Vec::new(alloc);
    for i in 0..members.len() {
        all.push(members[i].copy(alloc)?)?;
    }
    Ok(all)
}

fn copied_pair(key: &Text, part: &Text) -> Result<(Text, Text), AllocError>
    ensures { IfOk result (λ pair. (pair.0 ≡ key.now) × (pair.1 ≡ part.now)) }
{
    Ok((key.clone()?, part.clone()?))
}

fn copied_choice(
    alloc: Global,
    key: &Text,
    values: &[Text],
) -> Result<(Text, Vec<Text>), AllocError>
    ensures { IfOk result (λ pair. (pair.0 ≡ key.now) × (pair.1.items ≡ values.now)) }
{
    Ok((key.clone()?, copied_texts(alloc, values)?))
}

fn copied_texts(alloc: Global, texts: &[Text]) -> Result<Vec<Text>, AllocError>
    ensures { IfOk result (λ all. all.items ≡ texts.now) }
{
    let mut all = Vec::new(alloc);
    for text in texts {
        all.push(text.clone()?)?;
    }
    Ok(all)
}
