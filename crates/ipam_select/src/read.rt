ghost use Rattle.std.specs.Prelude.{◌≡◌, ◌≢◌, ◌↔◌, IsTrue, true, false, Some, None, Err, IfOk, ◌&&◌, option_map};
ghost use Rattle.ipam_select.specs.Formula.{formula};
ghost use Rattle.ipam_select.specs.Printing.{printed};
ghost use Rattle.ipam_select.specs.Reading.{reading};
ghost use Rattle.ipam_select.specs.Sound.{is_short, is_sound, IsUnreadable, IsReadAs, AreShort, IsTooLong, IsReadOfSome, IsLongReading};

use crate::reading::{DEPTH_MAX, reading};
use crate::selector::Selector;
use std::alloc::Global;

/// The most bytes of a selector's text, and of its printed form.
const TEXT_MAX: usize = 1024;

/// Why a text is not read as a selector.
#[derive(Debug, Drop, Clone, Copy, PartialEq, Eq)]
pub enum SelectFault {
    /// The text has no reading.
    Form,
    /// The text, or the printed form of what it means, has more than 1,024 bytes.
    Long,
    /// There was no memory.
    Memory,
}

impl Selector {
    /// Reads a selector's text: spaces and tabs may stand before, between and after its words and
    /// signs, and a text of these alone is `All`. `Form` comes before `Long`, and `Memory` where
    /// there was none for what is read.
    pub fn read(alloc: Global, text: &[u8]) -> Result<Selector, SelectFault>
        ensures ok { IfOk result (λ s. IsReadAs text.now (formula s)) }
        ensures short { IfOk result (λ s. AreShort text.now (formula s)) }
        ensures again { IfOk result (λ s. IsReadAs (printed (formula s)) (formula s)) }
        ensures form { result ≡ Err SelectFault.Form → IsUnreadable text.now }
        ensures long { result ≡ Err SelectFault.Long → IsTooLong text.now }
        ensures value { IfOk result (λ s. reading text.now ≡ Some (formula s)) }
        ensures no_value { result ≡ Err SelectFault.Form → reading text.now ≡ None }
    {
        read_text(alloc, text)
    }

    /// Whether some text is read as this selector.
    pub fn is_sound(&self) -> bool
        ensures exact { IsTrue result ↔ IsReadOfSome (formula self.now) }
        ensures value { result ≡ is_sound (formula self.now) }
    {
        self.is_formed_and_short()
    }

    fn is_formed_and_short(&self) -> bool
        ensures { result ≡ is_sound (formula self.now) }
    {
        self.is_formed(DEPTH_MAX) && self.is_short()
    }

    fn is_short(&self) -> bool
        ensures { result ≡ is_short (printed (formula self.now)) }
    {
        self.printed_len() <= TEXT_MAX
    }
}

fn read_text(alloc: Global, text: &[u8]) -> Result<Selector, SelectFault>
    ensures ok { IfOk result (λ s. (reading text.now ≡ Some (formula s)) × (is_short text.now ≡ true) × (is_short (printed (formula s)) ≡ true)) }
    ensures form { result ≡ Err SelectFault.Form → reading text.now ≡ None }
    ensures long { result ≡ Err SelectFault.Long → IsLongReading text.now (reading text.now) }
{
    match reading(alloc, text) {
        Ok(found) => settled(text, found),
        Err(_) => Err(SelectFault::Memory),
    }
}

/// What was found, unless it or the text is too long.
fn settled(text: &[u8], found: Option<Selector>) -> Result<Selector, SelectFault>
    ensures ok { IfOk result (λ s. (option_map formula found ≡ Some (formula s)) × (is_short text.now ≡ true) × (is_short (printed (formula s)) ≡ true)) }
    ensures form { result ≡ Err SelectFault.Form → option_map formula found ≡ None }
    ensures long { result ≡ Err SelectFault.Long → IsLongReading text.now (option_map formula found) }
{
    match found {
        Some(selector) => short_enough(text, selector),
        None => Err(SelectFault::Form),
    }
}

fn short_enough(text: &[u8], selector: Selector) -> Result<Selector, SelectFault>
    ensures ok { IfOk result (λ s. (s ≡ selector) × (is_short text.now ≡ true) × (is_short (printed (formula selector)) ≡ true)) }
    ensures form { result ≢ Err SelectFault.Form }
    ensures long { result ≡ Err SelectFault.Long → (is_short text.now && is_short (printed (formula selector))) ≡ false }
{
    if text.len() > TEXT_MAX {
        return Err(SelectFault::Long);
    }
    if selector.is_short() {
        Ok(selector)
    } else {
        Err(SelectFault::Long)
    }
}
