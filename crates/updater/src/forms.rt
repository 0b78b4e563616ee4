//! Forms of words that commands share.
ghost use Rattle.std.specs.Prelude.{◌≡◌, ◌≤◌, ℕ, List, map, length, IfSome};
ghost use Rattle.std.specs.Option.{option_map};
ghost use Rattle.std.specs.String.{string_bytes};
ghost use Rattle.run_promise.specs.CommandOf.{CommandOf, Fit, FitFrom};
ghost use Rattle.updater.specs.Forms as spec;
ghost use Rattle.run_promise.specs.declared.files.Files.{Files as FilesOf};
ghost use Rattle.updater.specs.declared.words.TheConstants.{MAX_WORDS};

use crate::words::MAX_WORDS;
use run_promise::Files;

/// The most bytes that a KEY may have.
pub const MAX_KEY: usize = 255;

/// The words behind the name of a command: its options, and those of its form, of which the first has this place among all.
#[derive(Clone, Copy)]
pub struct Words<'a> {
    pub options: &'a [String],
    pub form: &'a [String],
    pub place: u32,
    ghost placed: { place ≤ MAX_WORDS },
    ghost few: { length form.now ≤ MAX_WORDS },
}

/// `KEY INPUT CHANGE*`.
pub fn keyed(words: Words<'_>) -> Option<(&str, Files)>
    ensures keyed { (command : List ℕ → FilesOf → CommandOf) → option_map (λ (key, files). command key.now files) result
        ≡ spec.keyed command (map string_bytes words.entry.options.now) (map string_bytes words.entry.form.now) words.entry.place }
    ensures fits { IfSome result (λ (_, files). Fit files) }
{
    let (key, files) = words.form.split_first()?;
    if !words.options.is_empty() || files.is_empty() || key.is_empty() || key.len() > MAX_KEY {
        return None;
    }
    let files = Files {
        first: words.place + 1,
        count: files.len() as u32,
    };
    Some((key.as_str(), files))
}

/// `STORE`.
pub fn stored(words: Words<'_>) -> Option<&str>
    ensures stored { (command : List ℕ → CommandOf) → option_map (λ store. command store.now) result
        ≡ spec.stored command (map string_bytes words.entry.options.now) (map string_bytes words.entry.form.now) }
{
    match words.form {
        [store] if words.options.is_empty() => Some(store.as_str()),
        _ => None,
    }
}

/// `STORE` and so many files or more; of the options it says nothing.
pub fn stored_files(words: Words<'_>, fewest: usize) -> Option<(&str, Files)>
    requires some { 1 ≤ fewest }
    ensures stored { option_map (λ (store, files). (store.now, files)) result ≡ spec.stored_files fewest (map string_bytes words.entry.form.now) words.entry.place }
    ensures fits { IfSome result (λ (_, files). FitFrom fewest files) }
{
    let (store, files) = words.form.split_first()?;
    if files.len() < fewest {
        return None;
    }
    let files = Files {
        first: words.place + 1,
        count: files.len() as u32,
    };
    Some((store.as_str(), files))
}
