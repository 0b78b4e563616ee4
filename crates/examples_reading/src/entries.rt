//! Examples of files that are read whole: their bytes, and their entries.
use crate::key::{put_key, put_number};
use crate::lots::is_read_by_lots;
use doubles::{Fails, MemInputs};
use example_table::{bytes_of, named_row, number_in};
use object_fold::Change;
use opl_files::{FileFault, WholeFault, read_all, read_file};
use opl_object::Why;
use osm_base::{Bytes, Entry, FileList, Ids, LimitKind, LimitNumbers, Limits, OutOfMemory};
use std::alloc::{AllocError, Global};
use std::thread::Threads;

/// One file, whose word has the number 0, and of which the call with a number fails; none has the number 0.
pub fn inputs_of(alloc: Global, file: Vec<u8>, call: u64) -> Result<MemInputs, OutOfMemory> {
    let at = Vec::from_slice(alloc, &[call])?;
    let mut files = FileList::new(alloc);
    files.push(Bytes::from_vec(file))?;
    Ok(MemInputs::new(files, Fails::new(Ids::from_vec(at), 0)))
}

/// The entries of a file of which a call may fail.
pub fn read_entries(
    alloc: Global,
    limits: &Limits,
    file: Vec<u8>,
    call: u64,
) -> Result<Change, FileFault> {
    let mut inputs = inputs_of(alloc, file, call)?;
    read_file(alloc, &mut inputs, 0, limits)
}

/// All bytes of a file that has so many at most, and of which a call may fail.
fn read_bytes(alloc: Global, most: u64, file: Vec<u8>, call: u64) -> Result<Bytes, WholeFault> {
    let mut inputs = inputs_of(alloc, file, call)?;
    read_all(alloc, &mut inputs, 0, most)
}

/// Adds what `MOST FILE` finds: the bytes of the file, or `too_long`.
pub fn whole(alloc: Global, found: &mut Vec<u8>, given: &str) -> Result<bool, AllocError> {
    let Some((most, field)) = numbered(given) else {
        return Ok(false);
    };
    match bytes_of(alloc, field)? {
        Some(file) => put_bytes(found, &read_bytes(alloc, most, file, 0)),
        None => Ok(false),
    }
}

/// Adds what `LIMITS FILE` finds: the keys of the entries, or what stops the reading.
pub fn within<R: Threads + Sync>(
    rt: &R,
    alloc: Global,
    found: &mut Vec<u8>,
    given: &str,
) -> Result<bool, AllocError> {
    match limited(given) {
        Some((limits, field)) => put_file(rt, alloc, found, &limits, bytes_of(alloc, field)?, 0),
        None => Ok(false),
    }
}

/// Adds what is found of `bytes CALL FILE` and `entries CALL FILE`, where this call fails, and of `behind COUNT FILE`,
/// the entries of a file before which so many lines `#` stand.
pub fn reads<R: Threads + Sync>(
    rt: &R,
    alloc: Global,
    found: &mut Vec<u8>,
    word: &str,
    given: &str,
) -> Result<bool, AllocError> {
    let Some((number, field)) = numbered(given) else {
        return Ok(false);
    };
    match word {
        "bytes" => failing(alloc, found, number, field),
        "entries" => put_file(
            rt,
            alloc,
            found,
            &Limits::standard(),
            bytes_of(alloc, field)?,
            number,
        ),
        "behind" => put_file(
            rt,
            alloc,
            found,
            &Limits::standard(),
            behind(alloc, number, field)?,
            0,
        ),
        _ => Ok(false),
    }
}

/// Adds the bytes of a file, all of which may be read, but for a call that fails.
fn failing(alloc: Global, found: &mut Vec<u8>, call: u64, field: &str) -> Result<bool, AllocError> {
    match bytes_of(alloc, field)? {
        Some(file) => {
            let most = file.len() as u64;
            put_bytes(found, &read_bytes(alloc, most, file, call))
        }
        None => Ok(false),
    }
}

/// The file that a field writes, behind so many lines `#`.
fn behind(alloc: Global, count: u64, field: &str) -> Result<Option<Vec<u8>>, AllocError> {
    let mut long = Vec::new(alloc);
    for _ in 0..count {
        long.extend_from_slice(b"#\n")?;
    }
    let good = put_field(alloc, &mut long, field)?;
    Ok(if good { Some(long) } else { None })
}

/// Adds the bytes that a field writes. False: it writes none.
fn put_field(alloc: Global, bytes: &mut Vec<u8>, field: &str) -> Result<bool, AllocError> {
    match bytes_of(alloc, field)? {
        Some(more) => {
            bytes.extend_from_slice(&more)?;
            Ok(true)
        }
        None => Ok(false),
    }
}

/// The number in front of a row, and the text behind it.
fn numbered(text: &str) -> Option<(u64, &str)> {
    let (number, text) = named_row(text)?;
    Some((number_in(number)?, text))
}

/// The limits in front of a row, and the text behind them: `standard`, or bytes of a line, lines and entries with commas
/// between.
fn limited(text: &str) -> Option<(Limits, &str)> {
    let (field, text) = named_row(text)?;
    if field == "standard" {
        return Some((Limits::standard(), text));
    }
    let (line_bytes, rest) = field.split_once(',')?;
    let (lines, entries) = rest.split_once(',')?;
    let limits = Limits::new(LimitNumbers {
        line_bytes: number_in(line_bytes)?,
        lines: number_in(lines)?,
        entries: number_in(entries)?,
        ..Limits::standard().numbers()
    })?;
    Some((limits, text))
}

/// Adds what reading all bytes gave.
fn put_bytes(found: &mut Vec<u8>, read: &Result<Bytes, WholeFault>) -> Result<bool, AllocError> {
    let bytes: &[u8] = match read {
        Ok(bytes) => bytes.as_slice(),
        Err(WholeFault::TooLong) => b"too_long",
        Err(WholeFault::ReadFault) => b"read_fault",
        Err(WholeFault::OutOfMemory) => b"out_of_memory",
    };
    found.extend_from_slice(bytes)?;
    Ok(true)
}

/// Adds what reading the entries of a file gives, of which a call may fail. False: there is no file, or read by lots it gives
/// something else.
fn put_file<R: Threads + Sync>(
    rt: &R,
    alloc: Global,
    found: &mut Vec<u8>,
    limits: &Limits,
    file: Option<Vec<u8>>,
    call: u64,
) -> Result<bool, AllocError> {
    match file {
        Some(file) => {
            let bytes = Vec::from_slice(alloc, &file)?;
            let mut own = Vec::new(alloc);
            put_entries(alloc, &mut own, &read_entries(alloc, limits, file, call))?;
            let same = is_read_by_lots(rt, alloc, limits, &bytes, call, &own)?;
            found.append(&mut own)?;
            Ok(same)
        }
        None => Ok(false),
    }
}

/// Adds what reading the entries gave.
pub fn put_entries(
    alloc: Global,
    found: &mut Vec<u8>,
    read: &Result<Change, FileFault>,
) -> Result<(), AllocError> {
    match read {
        Ok(change) => put_keys(alloc, found, change.entries()),
        Err(FileFault::Malformed { line, why }) => put_malformed(alloc, found, *line, *why),
        Err(FileFault::Limit { which, value }) => {
            put_number(alloc, found, limit_words(*which), *value)
        }
        Err(FileFault::ReadFault) => found.extend_from_slice(b"read_fault"),
        Err(FileFault::OutOfMemory) => found.extend_from_slice(b"out_of_memory"),
    }
}

/// Adds the keys of entries, each with a minus where it is deleted.
fn put_keys(alloc: Global, found: &mut Vec<u8>, entries: &[Entry]) -> Result<(), AllocError> {
    for entry in entries {
        if !found.is_empty() {
            found.push(b' ')?;
        }
        put_key(alloc, found, entry.key)?;
        if entry.object.is_none() {
            found.push(b'-')?;
        }
    }
    Ok(())
}

/// Adds a line with a fault and its cause.
fn put_malformed(
    alloc: Global,
    found: &mut Vec<u8>,
    line: u32,
    why: Why,
) -> Result<(), AllocError> {
    let text = format!(in alloc; "malformed {line} {}", why.number())?;
    found.extend_from_slice(text.as_bytes())?;
    if let Why::Order { earlier, later } = why {
        found.push(b' ')?;
        put_key(alloc, found, earlier)?;
        found.push(b' ')?;
        put_key(alloc, found, later)?;
    }
    Ok(())
}

/// The words before the number that passes a limit.
fn limit_words(which: LimitKind) -> &'static str {
    match which {
        LimitKind::LineBytes => "limit line_bytes ",
        LimitKind::FileLines => "limit lines ",
        LimitKind::FileEntries => "limit entries ",
        _ => "limit another ",
    }
}
