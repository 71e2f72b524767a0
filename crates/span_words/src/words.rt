//! The numbers that the arguments specify.
ghost use Rattle.span_words.specs.Words.{AsksFor, Refused, Words};
ghost use Rattle.std.specs.Prelude.{◌≡◌, IfOk, IfErr, OnErr, option_map, map, string_bytes};

use crate::command::matches_of;
use clap::error::ErrorKind;
use std::alloc::Global;
use thiserror::Error;

/// What the arguments specify.
#[derive(Clone, Copy, Debug, PartialEq, Eq)]
pub struct Options {
    /// The number of workers, from 1 to 64. It is 1 if the arguments don't specify it.
    pub workers: u8,
    /// How many states the automaton of a query may have, from 128 to 1,024. It is 128 if the arguments don't specify it.
    pub states: u16,
    /// The number of the demo script that is run in place of standard input, from 1 to 46.
    pub demo: Option<u8>,
}

/// Why the arguments weren't read.
#[derive(Clone, Copy, Debug, PartialEq, Eq, Error)]
pub enum WordsRefusal {
    /// The command rejects the arguments.
    #[error("usage")]
    Usage,
    /// Allocation failed.
    #[error("no memory")]
    NoMemory,
}

/// The number of an option, from `least` to `most`, if the arguments have the option.
fn number_of(text: Option<&str>, least: u16, most: u16) -> Result<Option<u16>, WordsRefusal>
    ensures ok { IfOk result (λ number. AsksFor least most (option_map (λ s. s.now) text.entry) number) }
    ensures err { OnErr result ((number : _) → AsksFor least most (option_map (λ s. s.now) text.entry) number → ⊥) }
    ensures usage { IfErr result (λ why. why ≡ WordsRefusal.Usage) }
{
    let Some(text) = text else {
        return Ok(None);
    };
    let Ok(number) = text.parse::<u16>() else {
        return Err(WordsRefusal::Usage);
    };
    if number < least || number > most {
        return Err(WordsRefusal::Usage);
    }
    Ok(Some(number))
}

/// The number of an option, from 1 to `most`, if the arguments have the option.
fn small_number_of(text: Option<&str>, most: u8) -> Result<Option<u8>, WordsRefusal>
    ensures ok { IfOk result (λ number. AsksFor 1 most (option_map (λ s. s.now) text.entry) number) }
    ensures err { OnErr result ((number : _) → AsksFor 1 most (option_map (λ s. s.now) text.entry) number → ⊥) }
    ensures usage { IfErr result (λ why. why ≡ WordsRefusal.Usage) }
{
    match number_of(text, 1, most as u16)? {
        Some(number) => Ok(Some(number as u8)),
        None => Ok(None),
    }
}

/// What the arguments after the program's own name specify, in time linear in their length.
///
/// # Errors
///
/// - `Usage` exactly if the command rejects the arguments, `--help` among them.
/// - `NoMemory` if allocation fails.
pub fn read_words(alloc: Global, words: &[String]) -> Result<Options, WordsRefusal>
    ensures taken { IfOk result (λ options. Words (map string_bytes words.now) options.workers options.states options.demo) }
    ensures refused { IfErr result (λ why. why ≡ WordsRefusal.Usage → Refused (map string_bytes words.now)) }
{
    match matches_of(alloc, words) {
        Ok(matches) => {
            let workers = small_number_of(matches.get_str("workers"), 64)?;
            let states = number_of(matches.get_str("states"), 128, 1024)?;
            let demo = small_number_of(matches.get_str("demo"), 46)?;
            Ok(Options {
                workers: workers.unwrap_or(1),
                states: states.unwrap_or(128),
                demo,
            })
        }
        Err(error) if error.kind() == ErrorKind::OutOfMemory => Err(WordsRefusal::NoMemory),
        Err(_) => Err(WordsRefusal::Usage),
    }
}
