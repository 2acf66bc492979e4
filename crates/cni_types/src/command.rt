ghost use Rattle.std.specs.Prelude.{◌≡◌};

use crate::version::Version;

/// What a runtime may ask of a plugin.
#[derive(Clone, Copy)]
pub enum Command {
    /// Asks for addresses for a container. Each version has it.
    Add,
    /// Gives back the addresses of a container. Each version has it.
    Del,
    /// Asks whether a container still has its addresses. It came with 0.4.0.
    Check,
    /// Asks which versions the plugin supports. Each version has it.
    Version,
    /// Gives back what no valid attachment of the network holds on the node. It came with 1.1.0.
    Gc,
    /// Asks whether an ADD could be served. It came with 1.1.0.
    Status,
}

impl Command {
    ghost use Rattle.cni_types.specs.Command.{command_text, command_of, is_in};

    /// The command's text in `CNI_COMMAND`.
    pub fn text(self) -> &'static str
        ensures text { result.now ≡ command_text self }
        ensures reads_back { command_of (command_text self) ≡ Some self }
    {
        match self {
            Command::Add => "ADD",
            Command::Del => "DEL",
            Command::Check => "CHECK",
            Command::Version => "VERSION",
            Command::Gc => "GC",
            Command::Status => "STATUS",
        }
    }

    /// The command whose text this is.
    pub fn of(text: &str) -> Option<Command>
        ensures { result ≡ command_of text.now }
    {
        match text {
            "ADD" => Some(Command::Add),
            "DEL" => Some(Command::Del),
            "CHECK" => Some(Command::Check),
            "VERSION" => Some(Command::Version),
            "GC" => Some(Command::Gc),
            "STATUS" => Some(Command::Status),
            _ => None,
        }
    }

    /// Whether the version has the command: CHECK came with 0.4.0, GC and STATUS with 1.1.0.
    pub fn is_in(self, version: Version) -> bool
        ensures { result ≡ is_in self version }
    {
        match self {
            Command::Add | Command::Del | Command::Version => true,
            Command::Check => !matches!(version, Version::V0_3_0 | Version::V0_3_1),
            Command::Gc | Command::Status => matches!(version, Version::V1_1_0),
        }
    }
}
