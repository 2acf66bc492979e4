//! The order of ordinals by the bytes of their decimals.
ghost use Rattle.std.specs.Prelude.{◌≡◌, ◌≤◌, length, take, decimal};
ghost use Rattle.ipam_block_text.specs.Stamps.{comes_before};

/// Whether the first in decimal comes before the second. Of two with as many digits the lower one does.
#[tactic(auto, using(crate::proofs::DecimalOrder::before_longer, crate::proofs::DecimalOrder::before_no_longer, std::proofs::lemmas::Fmt::decimal_nonempty))]
pub(crate) fn comes_before(first: u16, second: u16) -> bool
    ensures { result ≡ comes_before first second }
{
    let left = digits(first);
    let right = digits(second);
    if left < right {
        return first <= shortened(second, left);
    }
    shortened(first, right) < second
}

/// The ordinal of the first so many digits.
fn shortened(ordinal: u16, count: u32) -> u16
    requires within { count ≤ length (decimal ordinal) }
    requires some { 1 ≤ count }
    ensures { decimal result ≡ take count (decimal ordinal) }
{
    let mut front = ordinal;
    'digits: while digits(front) > count {
        front /= 10;
    }
    front
}

/// How many digits the ordinal has.
#[tactic(auto, using(crate::proofs::DecimalOrder::digits_1, crate::proofs::DecimalOrder::digits_2, crate::proofs::DecimalOrder::digits_3, crate::proofs::DecimalOrder::digits_4, crate::proofs::DecimalOrder::digits_5))]
fn digits(ordinal: u16) -> u32
    ensures { result ≡ length (decimal ordinal) }
{
    match ordinal {
        0..=9 => 1,
        10..=99 => 2,
        100..=999 => 3,
        1_000..=9_999 => 4,
        _ => 5,
    }
}
