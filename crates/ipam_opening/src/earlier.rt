ghost use Rattle.std.specs.Prelude.{◌≡◌};
ghost use Rattle.ipam_opening.specs.Earlier.{earlier, earlier_of};

use ipam_text::Text;

/// Of the texts that there are, the one that comes first by its bytes.
pub(crate) fn earlier(one: Option<Text>, other: Option<Text>) -> Option<Text>
    ensures { result ≡ earlier one other }
{
    match (one, other) {
        (Some(one), Some(other)) => Some(earlier_of(one, other)),
        (one, None) => one,
        (None, other) => other,
    }
}

fn earlier_of(one: Text, other: Text) -> Text
    ensures { result ≡ earlier_of one other }
{
    if other.cmp(&one).is_lt() { other } else { one }
}
