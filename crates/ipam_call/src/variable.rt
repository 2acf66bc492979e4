ghost use Rattle.std.specs.Prelude.{◌≡◌};
ghost use Rattle.ipam_call.specs.CallVariables.{stand_in, variable_name};

/// A variable of a CNI call, after the specification of CNI 1.0.0.
#[derive(Clone, Copy)]
pub enum Variable {
    /// What is asked: ADD, DEL, CHECK, GC, STATUS or VERSION.
    Command,
    /// The id of the container.
    ContainerId,
    /// The path of the container's network namespace.
    Netns,
    /// The name of the interface in the container.
    Ifname,
    /// Pairs of a key and a value, as `IP=10.0.0.1;K8S_POD_NAME=web-0`.
    Args,
}

impl Variable {
    /// The name in the environment, as `CNI_COMMAND`.
    pub fn name(self) -> &'static str
        ensures { result.now ≡ variable_name self }
    {
        match self {
            Variable::Command => "CNI_COMMAND",
            Variable::ContainerId => "CNI_CONTAINERID",
            Variable::Netns => "CNI_NETNS",
            Variable::Ifname => "CNI_IFNAME",
            Variable::Args => "CNI_ARGS",
        }
    }

    /// Stands in for a value that is no text. Only the arguments may be empty, and each of them has a `=`.
    pub(crate) fn stand_in(self) -> &'static str
        ensures { result.now ≡ stand_in self }
    {
        match self {
            Variable::Command | Variable::ContainerId | Variable::Netns | Variable::Ifname => "",
            Variable::Args => "?",
        }
    }
}
