use ipam_text::Text;

/// Which nodes a pool is for.
#[derive(Drop)]
pub enum Selector {
    /// Every node, whatever its labels.
    All,
    /// The key is there.
    Has(Text),
    /// The key is there with this value.
    Is(Text, Text),
    /// The nodes that this selector does not admit.
    Not(Box<Selector>),
    /// The key is there with one of these values, which ascend and differ.
    In(Text, Vec<Text>),
    /// The key is there, and this is a part of its value.
    Contains(Text, Text),
    /// The key is there, and its value begins with this.
    Starts(Text, Text),
    /// The key is there, and its value ends with this.
    Ends(Text, Text),
    /// At least two members.
    And(Vec<Selector>),
    /// At least two members.
    Or(Vec<Selector>),
}
