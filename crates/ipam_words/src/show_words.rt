//! The words after `show`.
ghost use Rattle.std.specs.Prelude.{◌≡◌, map, option_map, string_bytes};
ghost use Rattle.ipam_addr.specs.Text.{address_of};
ghost use Rattle.ipam_words.specs.Words.{address_seen, asked_by, config_as_json, four_listed, holder_as_json, holder_named, is_json, listed, listing_named, look_named, one_chosen, pair_looked, show_named, three_chosen, three_listed, two_chosen, two_listed, view_named};

use crate::command::Command;
use crate::view::{Choice, Form, View};
use ipam_addr::{is_handle_id, is_name, read_addr, read_cidr};

/// What the words after `show` ask, where there are some.
pub(crate) fn show_named<'a>(words: &'a [String]) -> Option<Command<'a>>
    ensures { option_map asked_by result ≡ show_named (map string_bytes words.now) }
{
    match look_named(words) {
        Some(command) => Some(command),
        None => listing_named(words),
    }
}

fn look_named<'a>(words: &'a [String]) -> Option<Command<'a>>
    ensures { option_map asked_by result ≡ look_named (map string_bytes words.now) }
{
    match words {
        [word] => view_named(word.as_str()),
        [word, name] => pair_looked(word.as_str(), name.as_str()),
        [word, name, last] => holder_as_json(word.as_str(), name.as_str(), last.as_str()),
        _ => None,
    }
}

#[tactic(auto, unfolding(crate::specs::Words::view_named))]
fn view_named<'a>(word: &str) -> Option<Command<'a>>
    ensures { option_map asked_by result ≡ view_named word.now }
{
    match word {
        "--json" => Some(Command::Show(View::Json)),
        "--metrics" => Some(Command::Show(View::Metrics)),
        "blocks" => Some(Command::Show(View::Blocks)),
        "config" => Some(Command::Show(View::Config(Form::Table))),
        _ => address_named(word),
    }
}

fn address_named<'a>(word: &str) -> Option<Command<'a>>
    ensures { option_map asked_by result ≡ address_seen (address_of word.now) }
{
    match read_addr(word.as_bytes()) {
        Ok(address) => Some(Command::Show(View::Address(address))),
        Err(_) => None,
    }
}

#[tactic(auto, unfolding(crate::specs::Words::pair_looked))]
fn pair_looked<'a>(word: &str, name: &'a str) -> Option<Command<'a>>
    ensures { option_map asked_by result ≡ pair_looked word.now name.now }
{
    if is_json(name) {
        config_as_json(word)
    } else {
        holder_named(word, name, Form::Table)
    }
}

#[tactic(auto, unfolding(crate::specs::Words::config_as_json))]
fn config_as_json<'a>(word: &str) -> Option<Command<'a>>
    ensures { option_map asked_by result ≡ config_as_json word.now }
{
    if word == "config" {
        Some(Command::Show(View::Config(Form::Json)))
    } else {
        None
    }
}

/// The node or the handle of the name.
#[tactic(auto, unfolding(crate::specs::Words::holder_named))]
fn holder_named<'a>(word: &str, name: &'a str, form: Form) -> Option<Command<'a>>
    ensures { option_map asked_by result ≡ holder_named form word.now name.now }
{
    if word == "node" && is_name(name.as_bytes()) {
        Some(Command::Show(View::Node(name, form)))
    } else if word == "handle" && is_handle_id(name.as_bytes()) {
        Some(Command::Show(View::Handle(name, form)))
    } else {
        None
    }
}

#[tactic(auto, unfolding(crate::specs::Words::holder_as_json))]
fn holder_as_json<'a>(word: &str, name: &'a str, last: &str) -> Option<Command<'a>>
    ensures { option_map asked_by result ≡ holder_as_json word.now name.now last.now }
{
    if is_json(last) {
        holder_named(word, name, Form::Json)
    } else {
        None
    }
}

/// The addresses of a choice. The last word may be `--json`.
fn listing_named<'a>(words: &'a [String]) -> Option<Command<'a>>
    ensures { option_map asked_by result ≡ listing_named (map string_bytes words.now) }
{
    match words {
        [word] => one_listed(word.as_str(), Form::Table),
        [word, last] => two_listed(word.as_str(), last.as_str()),
        [word, first, last] => three_listed(word.as_str(), first.as_str(), last.as_str()),
        [word, first, second, last] => four_listed(
            word.as_str(),
            first.as_str(),
            second.as_str(),
            last.as_str(),
        ),
        _ => None,
    }
}

#[tactic(auto, unfolding(crate::specs::Words::two_listed))]
fn two_listed<'a>(word: &str, last: &str) -> Option<Command<'a>>
    ensures { option_map asked_by result ≡ two_listed word.now last.now }
{
    if is_json(last) {
        one_listed(word, Form::Json)
    } else {
        within_listed(word, last, Form::Table)
    }
}

#[tactic(auto, unfolding(crate::specs::Words::three_listed))]
fn three_listed<'a>(word: &str, first: &str, last: &'a str) -> Option<Command<'a>>
    ensures { option_map asked_by result ≡ three_listed word.now first.now last.now }
{
    if is_json(last) {
        within_listed(word, first, Form::Json)
    } else {
        node_listed(word, first, last, Form::Table)
    }
}

#[tactic(auto, unfolding(crate::specs::Words::four_listed))]
fn four_listed<'a>(word: &str, first: &str, second: &'a str, last: &str) -> Option<Command<'a>>
    ensures { option_map asked_by result ≡ four_listed word.now first.now second.now last.now }
{
    if is_json(last) {
        node_listed(word, first, second, Form::Json)
    } else {
        None
    }
}

fn is_json(last: &str) -> bool
    ensures { result ≡ is_json last.now }
{
    last == "--json"
}

#[tactic(auto, unfolding(crate::specs::Words::one_chosen))]
fn one_listed<'a>(word: &str, form: Form) -> Option<Command<'a>>
    ensures { option_map asked_by result ≡ listed form (one_chosen word.now) }
{
    match word {
        "addresses" => Some(Command::Show(View::Addresses(Choice::All, form))),
        "borrowed" => Some(Command::Show(View::Addresses(Choice::Borrowed, form))),
        _ => None,
    }
}

#[tactic(auto, unfolding(crate::specs::Words::two_chosen))]
fn within_listed<'a>(word: &str, block: &str, form: Form) -> Option<Command<'a>>
    ensures { option_map asked_by result ≡ listed form (two_chosen word.now block.now) }
{
    if word != "addresses" {
        return None;
    }
    match read_cidr(block.as_bytes()) {
        Ok(cidr) => Some(Command::Show(View::Addresses(Choice::Within(cidr), form))),
        Err(_) => None,
    }
}

#[tactic(auto, unfolding(crate::specs::Words::three_chosen))]
fn node_listed<'a>(word: &str, option: &str, node: &'a str, form: Form) -> Option<Command<'a>>
    ensures { option_map asked_by result ≡ listed form (three_chosen word.now option.now node.now) }
{
    if word == "addresses" && option == "--node" && is_name(node.as_bytes()) {
        Some(Command::Show(View::Addresses(Choice::OfNode(node), form)))
    } else {
        None
    }
}
