//! Laws of the texts of blocks. Each function does nothing: its contract is the law.
ghost use Rattle.std.specs.Prelude.{◌≡◌, ℕ, List, Ok, Err, Some};
ghost use Rattle.serde_json.specs.Data.{Data};
ghost use Rattle.serde_json.specs.Written.{compact_text};
ghost use Rattle.ipam_addr.specs.Shape.{CidrValue};
ghost use Rattle.ipam_block.specs.Shape.{BlockValue};
ghost use Rattle.ipam_block_text.specs.Body.{parts_data, block_body};
ghost use Rattle.ipam_block_text.specs.Form.{AreParts, AreStamps};
ghost use Rattle.ipam_block.specs.Sound.{IsBlockRecord};
ghost use Rattle.ipam_block_text.specs.Reading.{block_reading, cidr_said};
ghost use Rattle.ipam_block_text.specs.declared.fault.BodyFault.TheVariants.{Unsound};
ghost use Rattle.ipam_block_text.specs.declared.parts.Parts.{Parts};

/// What is read is the text of a sound block, and the block is that one.
pub fn what_is_read_is_the_text_of_a_sound_block()
    ensures text { (body : List ℕ) (b : BlockValue) → block_reading body ≡ Ok b → body ≡ block_body b }
    ensures sound { (body : List ℕ) (b : BlockValue) → block_reading body ≡ Ok b → IsBlockRecord b }
{}

/// Each sound block is read from its text.
pub fn each_sound_block_is_read_from_its_text()
    ensures { (b : BlockValue) → IsBlockRecord b → block_reading (block_body b) ≡ Ok b }
{}

/// No two sound blocks have one text.
pub fn each_sound_block_has_a_text_of_its_own()
    ensures { (b c : BlockValue) → IsBlockRecord b → IsBlockRecord c → block_body b ≡ block_body c
        → b ≡ c }
{}

/// A text with the members of a block and within their limits says the CIDR of that block.
pub fn a_text_of_parts_says_their_cidr()
    ensures { (p : Parts) (stamps : Data) → AreParts p → AreStamps stamps
        → cidr_said (compact_text (parts_data p stamps)) ≡ Some p.cidr }
{}

/// The fault of an unsound text names the CIDR that the text says.
pub fn an_unsound_text_says_the_cidr_of_its_fault()
    ensures { (body : List ℕ) (cidr : CidrValue) → block_reading body ≡ Err (Unsound cidr)
        → cidr_said body ≡ Some cidr }
{}
