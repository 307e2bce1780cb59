//! The form of a command line.

ghost use Rattle.std.specs.Prelude.{◌≡◌, ℕ, List, [], ◌∷◌, map, codes, string_bytes, option_map, Option, Some, None, Ok, IfSome, IfNone, IfOk, IfErr};
ghost use Rattle.clap.specs.Words.{first_value, found_of, kind_of};
ghost use Rattle.lu_top.specs.Forms.{IsForm, Says, SaysNothing, word_of, number_of, words_with};
ghost use Rattle.lu_top.specs.declared.forms.Form.{Form as FormOf};

use clap::error::ErrorKind;
use clap::{Arg, ArgAction, ArgMatches, Command, Error};
use lu_base::{Memory, read_number};
use std::alloc::Global;

/// Which scenario is performed, and what is written of its run.
#[derive(Clone, Copy, Debug, PartialEq, Eq)]
pub enum Performance {
    /// `play`: a scenario that is read, and its trace is written.
    Play,
    /// `storm` and a number: the storm of that number, and the summary of its trace is written.
    Storm(u64),
}

/// A form of a command line.
#[derive(Clone, Copy, Debug, PartialEq, Eq)]
pub enum Form {
    /// A scenario is performed.
    Perform(Performance),
    /// `judge`: a trace is read and judged, and the verdict is written.
    Judge,
}

/// The form of the words, where they have one. `clap` reads only words that have one.
pub(crate) fn read_form(alloc: Global, words: &[String]) -> Result<Option<Form>, Memory>
    ensures some { IfOk result (λ found. IfSome found (Says (map string_bytes words.now))) }
    ensures none { IfOk result (λ found. IfNone found (SaysNothing (map string_bytes words.now))) }
    ensures only { SaysNothing (map string_bytes words.now) → result ≡ Ok None }
{
    if form_of_words(words).is_none() {
        return Ok(None);
    }
    match matches_of(alloc, words) {
        Ok(matches) => Ok(form_of_matches(&matches)),
        Err(_) => Err(Memory),
    }
}

/// The form of words.
fn form_of_words(words: &[String]) -> Option<Form>
    ensures some { IfSome result (Says (map string_bytes words.now)) }
    ensures none { IfNone result (SaysNothing (map string_bytes words.now)) }
{
    match words {
        [word] => form_of(word.as_str(), None),
        [word, number] => form_of(word.as_str(), Some(number.as_str())),
        _ => None,
    }
}

/// The form of a word, and of a number after it if there is one.
fn form_of(word: &str, number: Option<&str>) -> Option<Form>
    ensures some { IfSome result (Says (words_with word.now (option_map (λ n. n.now) number.entry))) }
    ensures none { IfNone result (SaysNothing (words_with word.now (option_map (λ n. n.now) number.entry))) }
{
    match (word, number) {
        ("play", None) => Some(Form::Perform(Performance::Play)),
        ("storm", Some(number)) => match read_number(number.as_bytes()) {
            Some(seed) => Some(Form::Perform(Performance::Storm(seed))),
            None => None,
        },
        ("judge", None) => Some(Form::Judge),
        _ => None,
    }
}

/// What `clap` makes of words: the first is `form`, and the second, if there is one, `number`. Of words that have a form
/// it misses nothing, so it fails only for want of memory.
fn matches_of<'a>(alloc: Global, words: &'a [String]) -> Result<ArgMatches<'a>, Error>
    ensures fails { (form : FormOf) → Says (map string_bytes words.entry.now) form
        → IfErr result (λ e. kind_of e ≡ ErrorKind.OutOfMemory) }
    ensures word { (form : FormOf) → Says (map string_bytes words.entry.now) form
        → IfOk result (λ m. first_value (found_of m) (codes "form") ≡ Some (word_of form)) }
    ensures number { (form : FormOf) → Says (map string_bytes words.entry.now) form
        → IfOk result (λ m. first_value (found_of m) (codes "number") ≡ number_of form) }
{
    let form = Arg::new(alloc, "form")
        .required(true)
        .action(ArgAction::Set);
    let number = Arg::new(alloc, "number").action(ArgAction::Set);
    let command = Command::new(alloc, "lustre_run").arg(form)?.arg(number)?;
    command.no_binary_name(true).try_get_matches_from(words)
}

/// The form of words as `clap` read them.
fn form_of_matches(matches: &ArgMatches) -> Option<Form>
    ensures form { (form : FormOf) → IsForm form → first_value (found_of matches.now) (codes "form") ≡ Some (word_of form)
        → first_value (found_of matches.now) (codes "number") ≡ number_of form → result ≡ Some form }
{
    match matches.get_str("form") {
        Some(word) => form_of(word, matches.get_str("number")),
        None => None,
    }
}
