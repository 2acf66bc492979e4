//! The environment of a call is tested.
ghost use Rattle.std.specs.Prelude.{◌≡◌};
ghost use Rattle.std.specs.List.{list_all};
ghost use Rattle.cni_types.specs.Environment.{variable as value_of_variable, is_interface_byte, is_interface, are_arguments, environment_tested};

use crate::arguments::{are_items, argument};
use crate::command::Command;
use crate::limits::INTERFACE_BYTES_MAX;
use crate::refusal::Variable;
use ipam_addr::{is_name, read_addr};
use ipam_block::VALUE_BYTES_MAX;
use ipam_text::Text;

/// The value of a variable: of its last pair, and empty where it has none.
pub(crate) fn value_of<'a>(env: &'a [(Text, Text)], variable: Variable) -> &'a str
    ensures { result.now ≡ value_of_variable variable env.now }
{
    let name = variable.name();
    let mut value = "";
    for pair in env {
        if pair.0.as_str() == name {
            value = pair.1.as_str();
        }
    }
    value
}

/// The first variable that is bad, in the order in which they are tested.
#[tactic(auto, unfolding(crate::specs::Environment::container_tested))]
pub(crate) fn test_environment(command: Command, env: &[(Text, Text)]) -> Result<(), Variable>
    ensures { result ≡ environment_tested command env.now }
{
    let needs_namespace = match command {
        Command::Add | Command::Check => true,
        Command::Del => false,
        Command::Version | Command::Gc | Command::Status => return Ok(()),
    };
    if !is_name(value_of(env, Variable::ContainerId).as_bytes()) {
        return Err(Variable::ContainerId);
    }
    if needs_namespace && value_of(env, Variable::Netns).is_empty() {
        return Err(Variable::Netns);
    }
    if !is_interface(value_of(env, Variable::Ifname)) {
        return Err(Variable::Ifname);
    }
    if !are_arguments(value_of(env, Variable::Args)) {
        return Err(Variable::Args);
    }
    Ok(())
}

/// Whether it may name an interface.
fn is_interface(name: &str) -> bool
    ensures { result ≡ is_interface name.now }
{
    !name.is_empty()
        && name.len() <= INTERFACE_BYTES_MAX
        && are_interface_bytes(name.as_bytes())
        && name != "."
        && name != ".."
}

fn are_interface_bytes(bytes: &[u8]) -> bool
    ensures { result ≡ list_all is_interface_byte bytes.now }
{
    bytes.iter().all(|&byte| is_interface_byte(byte))
}

/// Whether it is no `/`, no `:` and no white space.
fn is_interface_byte(byte: u8) -> bool
    ensures { result ≡ is_interface_byte byte }
{
    !(byte == b'/' || byte == b':' || byte.is_ascii_whitespace())
}

#[tactic(auto, unfolding(crate::specs::Environment::are_arguments))]
fn are_arguments(text: &str) -> bool
    ensures { result ≡ are_arguments text.now }
{
    let address = argument(text, "IP");
    are_items(text)
        && (address.is_empty() || read_addr(address.as_bytes()).is_ok())
        && argument(text, "K8S_POD_NAMESPACE").len() <= VALUE_BYTES_MAX
        && argument(text, "K8S_POD_NAME").len() <= VALUE_BYTES_MAX
}
