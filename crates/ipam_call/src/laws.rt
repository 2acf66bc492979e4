//! What a value that is no text comes to. The function does nothing: its contract is the law.
ghost use Rattle.ipam_call.specs.CallVariables.{RefusedLaw};

/// Where the value of a variable is no text, the step of a call that looks at it refuses the call: no
/// command is found, or the test of the container, the namespace (where that is needed), the interface
/// or the arguments fails.
pub fn what_is_no_text_is_refused()
    ensures { RefusedLaw }
{}
