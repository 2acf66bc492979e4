ghost use Rattle.std.specs.Prelude.{◌≡◌};
ghost use Rattle.ipam_select.specs.Reading.{is_mark, operator_of_mark, is_negative};

use ipam_text::Text;

/// What a selector's text is made of, blanks apart.
#[derive(Drop)]
pub(crate) enum Token {
    /// A longest run of the characters of a key: a key, or a word such as `in`.
    Word(Text),
    /// What stands between two quotes.
    Quoted(Text),
    Mark(Mark),
}

/// A token that has one spelling.
#[derive(Clone, Copy, PartialEq, Eq)]
pub(crate) enum Mark {
    Open,
    Close,
    OpenBrace,
    CloseBrace,
    Comma,
    /// `==`
    Equal,
    /// `!=`
    Unequal,
    /// `!`
    Bang,
    /// `&&`
    Ands,
    /// `||`
    Bars,
}

/// What stands between a key and its values.
#[derive(Clone, Copy)]
pub(crate) enum Operator {
    Equals,
    Differs,
    OneOf,
    NoneOf,
    Contains,
    Starts,
    Ends,
}

impl Token {
    pub(crate) fn is_mark(&self, mark: Mark) -> bool
        ensures { result ≡ is_mark mark self.now }
    {
        match self {
            Token::Mark(found) => *found == mark,
            _ => false,
        }
    }
}

impl Mark {
    pub(crate) fn operator(self) -> Option<Operator>
        ensures { result ≡ operator_of_mark self }
    {
        match self {
            Mark::Equal => Some(Operator::Equals),
            Mark::Unequal => Some(Operator::Differs),
            _ => None,
        }
    }
}

impl Operator {
    /// The operator says that the key's value isn't there.
    pub(crate) fn is_negative(self) -> bool
        ensures { result ≡ is_negative self }
    {
        match self {
            Operator::Differs | Operator::NoneOf => true,
            _ => false,
        }
    }
}
