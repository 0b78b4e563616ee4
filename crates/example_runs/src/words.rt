//! Words with what they ask for.

use crate::example::Example;
use crate::texts::Texts;
use example_table::named_row;
use std::alloc::{AllocError, Global};

/// The run of the words of a row: `WORD.. => usage`, where they are no command, `WORD.. => store PATH` where they make one there,
/// `WORD.. => opens PATH` where they want one there, or `WORD.. => tag KEY NUMBER..` with the numbers of the words that are files. Each word has a file, whose
/// node has the number of the word as its id and the tag KEY, and the nodes printed tell which were read.
pub fn example_of(alloc: Global, given: &str, wanted: &str) -> Result<Option<Example>, AllocError> {
    let Some((kind, text)) = named_row(wanted) else {
        return Ok(None);
    };
    let mut example = Example::new(alloc)?;
    let known = set(alloc, &mut example, "words", given)?
        && match kind {
            "usage" => set_usage(alloc, &mut example)?,
            "store" => set_store(alloc, &mut example, text)?,
            "opens" => set_opens(alloc, &mut example, text)?,
            "tag" => set_files(alloc, &mut example, text)?,
            _ => false,
        };
    Ok(if known { Some(example) } else { None })
}

/// Takes up what a row without a named text says.
fn set(alloc: Global, example: &mut Example, word: &str, text: &str) -> Result<bool, AllocError> {
    example.set(alloc, &Texts::new(alloc), word, text)
}

/// The words are no command.
fn set_usage(alloc: Global, example: &mut Example) -> Result<bool, AllocError> {
    Ok(set(alloc, example, "status", "2")? && set(alloc, example, "fault", "usage")?)
}

/// The words make the store at this path.
fn set_store(alloc: Global, example: &mut Example, path: &str) -> Result<bool, AllocError> {
    Ok(
        set(alloc, example, "store", path)?
            && set(alloc, example, ">", "formatted")?
            && set(alloc, example, "disk-bytes", "8192")?,
    )
}

/// The words want a store at this path, and there is an empty disk.
fn set_opens(alloc: Global, example: &mut Example, path: &str) -> Result<bool, AllocError> {
    Ok(
        set(alloc, example, "store", path)?
            && set(alloc, example, "status", "6")?
            && set(alloc, example, "fault", "not formatted")?,
    )
}

/// The words ask for the nodes with a tag of the files of some words.
fn set_files(alloc: Global, example: &mut Example, text: &str) -> Result<bool, AllocError> {
    let Some((key, numbers)) = named_row(text) else {
        return Ok(false);
    };
    let count = match example.turns.last() {
        Some(turn) => turn.words.len(),
        None => 0,
    };
    for number in 1..count {
        let file = format!(in alloc; "{number}")?;
        let node = format!(in alloc; "n{number} T{key}=v x0 y0")?;
        if !set(alloc, example, "file", file.as_str())?
            || !set(alloc, example, "|", node.as_str())?
        {
            return Ok(false);
        }
    }
    for number in numbers.split_ascii_whitespace() {
        let row = format!(in alloc; "{number}\\tv\\tPOINT(0 0)")?;
        if !set(alloc, example, ">", row.as_str())? {
            return Ok(false);
        }
    }
    Ok(true)
}
