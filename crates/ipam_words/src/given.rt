//! The words that a process was given.
ghost use Rattle.std.specs.Prelude.{◌≡◌, [], ◌∷◌, IfOk, Some, map, option_map, string_bytes};
ghost use Rattle.ipam_words.specs.Given.{IsGiven};

use std::alloc::{AllocError, Global};

/// Stands for words of which one is no text. It names no command.
const NO_TEXT: &str = "\u{fffd}";

/// The words of a command line, of which the first is the program's name: those after it. None stands for words of
/// which one is no text. Such a command line is faulty: its words name nothing.
#[tactic(auto, using(crate::proofs::GivenLemmas::no_text))]
pub fn words_given(alloc: Global, args: Option<Vec<String>>) -> Result<Vec<String>, AllocError>
    ensures { IfOk result (λ words. IsGiven (option_map (λ all. map string_bytes all.items) args) (map string_bytes words.items)) }
{
    match args {
        Some(all) => Ok(after_name(all)),
        None => {
            let words = no_words(alloc)?;
            Ok(words)
        }
    }
}

/// The words after the program's name.
fn after_name(args: Vec<String>) -> Vec<String>
    ensures { IsGiven (Some (map string_bytes args.items)) (map string_bytes result.items) }
{
    let mut words = args;
    if !words.is_empty() {
        drop(words.remove(0));
    }
    words
}

/// One word, which names no command.
fn no_words(alloc: Global) -> Result<Vec<String>, AllocError>
    ensures { IfOk result (λ words. map string_bytes words.items ≡ (239 ∷ 191 ∷ 189 ∷ []) ∷ []) }
{
    let mut words = Vec::new(alloc);
    words.push(String::from_str(alloc, NO_TEXT)?)?;
    Ok(words)
}
