//! Appends once more, with the option that says how many files are read ahead.

use crate::turn::Turn;
use example_table::number_in;
use std::alloc::{AllocError, Global};

/// The options with which each append is run once more.
pub const OPTIONS: [&str; 3] = ["ahead=0", "ahead=1", "ahead=8"];

/// Whether the words begin as an append, and none of them is such an option.
pub fn may_read_ahead(words: &[String]) -> bool {
    match words {
        [name, rest @ ..] => {
            name.as_str() == "append" && !rest.iter().any(|word| says_ahead(word))
        }
        [] => false,
    }
}

/// Whether a word says how many files are read ahead.
fn says_ahead(word: &str) -> bool {
    word.as_bytes().starts_with(b"ahead=")
}

/// A run with an option behind its first word. The number of each file is one higher, and what the disk holds then does not count.
pub fn with_option(alloc: Global, turn: &Turn, option: &str) -> Result<Turn, AllocError> {
    let mut again = turn.copied(alloc)?;
    again.words = words_with(alloc, &turn.words, option)?;
    again.files.insert(0, Vec::new(alloc))?;
    again.wanted.fault = fault_behind(alloc, turn.wanted.fault.as_str())?;
    Ok(again)
}

/// The words with an option behind the first.
fn words_with(alloc: Global, words: &[String], option: &str) -> Result<Vec<String>, AllocError> {
    let mut all = Vec::new(alloc);
    for word in words {
        let first = all.is_empty();
        all.push(String::from_str(alloc, word)?)?;
        if first {
            all.push(String::from_str(alloc, option)?)?;
        }
    }
    Ok(all)
}

/// The line of a fault, with the number of a file one higher where it tells one.
fn fault_behind(alloc: Global, fault: &str) -> Result<String, AllocError> {
    let Some((front, rest)) = fault.split_once(" file ") else {
        return String::from_str(alloc, fault);
    };
    match rest.split_once(' ') {
        Some((number, end)) => format!(in alloc; "{front} file {} {end}", behind(number)),
        None => format!(in alloc; "{front} file {}", behind(rest)),
    }
}

/// The number behind this one.
fn behind(number: &str) -> u64 {
    number_in(number).unwrap_or(0).saturating_add(1)
}
