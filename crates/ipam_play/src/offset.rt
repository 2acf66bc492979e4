ghost use Rattle.std.specs.Prelude.{◌+◌, ◌≤◌};
ghost use Rattle.ipam_answer_text.specs.declared.limits.TheConstants.{MOST_SCRIPT_BYTES};

/// How many bytes stand before a line of a script.
#[derive(Clone, Copy)]
pub(crate) struct Offset {
    pub(crate) bytes: u64,
    ghost small: { bytes ≤ MOST_SCRIPT_BYTES + 1 },
}
