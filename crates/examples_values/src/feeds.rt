//! Files of feeds, as rows of the table tell them: a bar for each newline, and @N for N digits 0.
use crate::rows::style;
use delta_feed::{Block, FeedFault, FeedReader};
use doubles::{Fails, MemInputs};
use osm_base::{Bytes, FileList, Limits, OutOfMemory};
use std::alloc::{AllocError, Global};
use style_read::Style;

/// More blocks than a file of the table has.
const MOST_BLOCKS: u32 = 100;

/// What the blocks of a file are, and its end or its first fault. Its differences are over the style of the rows.
pub fn feed(alloc: Global, given: &str) -> Result<Option<String>, OutOfMemory> {
    match style(alloc)? {
        None => Ok(None),
        Some(style) => feed_over(alloc, Some(&style), given),
    }
}

/// The same where there is no style.
pub fn feed_alone(alloc: Global, given: &str) -> Result<Option<String>, OutOfMemory> {
    feed_over(alloc, None, given)
}

/// The same over a style, if there is one.
fn feed_over(
    alloc: Global,
    base: Option<&Style>,
    given: &str,
) -> Result<Option<String>, OutOfMemory> {
    let mut inputs = MemInputs::new(files_of(alloc, given)?, Fails::never(alloc));
    let mut reader = FeedReader::new(alloc, 0, &Limits::standard());
    let mut text = String::new(alloc);
    for _ in 0..MOST_BLOCKS {
        match reader.next(alloc, &mut inputs, base) {
            Ok(Some(block)) => push_block(alloc, &mut text, &block)?,
            Ok(None) => {
                text.push_str("end")?;
                return Ok(Some(text));
            }
            Err(fault) => {
                push_fault(alloc, &mut text, fault)?;
                return Ok(Some(text));
            }
        }
    }
    Ok(None)
}

/// The one file that a text tells.
fn files_of(alloc: Global, given: &str) -> Result<FileList, AllocError> {
    let mut bytes = Vec::new(alloc);
    let mut first = true;
    for line in given.split('|') {
        if !first {
            bytes.push(b'\n')?;
        }
        first = false;
        push_line(&mut bytes, line)?;
    }
    let mut files = Vec::new(alloc);
    files.push(Bytes::from_vec(bytes))?;
    Ok(FileList::from_vec(files))
}

/// Adds a line.
fn push_line(bytes: &mut Vec<u8>, line: &str) -> Result<(), AllocError> {
    match line.split_once('@') {
        None => bytes.extend_from_slice(line.as_bytes()),
        Some((front, count)) => {
            bytes.extend_from_slice(front.as_bytes())?;
            push_zeros(bytes, count.parse::<u32>().unwrap_or(0))
        }
    }
}

/// Adds so many digits 0.
fn push_zeros(bytes: &mut Vec<u8>, count: u32) -> Result<(), AllocError> {
    for _ in 0..count {
        bytes.push(b'0')?;
    }
    Ok(())
}

/// Adds what a block is.
fn push_block(alloc: Global, text: &mut String, block: &Block) -> Result<(), OutOfMemory> {
    let (word, version, rows) = match block {
        Block::Full { version, rows, .. } => ("full", *version, rows.as_slice().len()),
        Block::Delta(delta) => ("delta", delta.version, delta.changes.as_slice().len()),
    };
    let told = format!(in alloc; "{word} {version} with {rows}, ")?;
    text.push_str(told.as_str())?;
    Ok(())
}

/// Adds why no block comes.
fn push_fault(alloc: Global, text: &mut String, fault: FeedFault) -> Result<(), OutOfMemory> {
    let told = match fault {
        FeedFault::Bad { line, why } => {
            let cause = why.number();
            format!(in alloc; "line {line} cause {cause}")?
        }
        FeedFault::NoBase { line } => format!(in alloc; "line {line} differs from nothing")?,
        FeedFault::Limit { value, .. } => format!(in alloc; "limit {value}")?,
        FeedFault::ReadFault => format!(in alloc; "not read")?,
        FeedFault::OutOfMemory => return Err(OutOfMemory),
    };
    text.push_str(told.as_str())?;
    Ok(())
}
