//! What the labels of words say.
ghost use Rattle.ipam_model.specs.LabelLaw.{LabelsLaw};

/// The label of what runs in a slot says what the calls of its request have made: exactly the credit
/// that they give it, and exactly the point of a claim or a release at which it stands by them.
pub fn each_label_says_what_its_calls_have_made()
    ensures { LabelsLaw }
{}
