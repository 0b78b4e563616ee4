//! Crashes of a disk, and what they leave. Each example adds what comes out, and answers whether its row is in its form.

use crate::deeds::put_bytes;
use crate::stores::{opened_once, put_outcome};
use doubles::{CrashPick, MemDisk};
use example_table::{named_row, number_in};
use std::alloc::{AllocError, Global};

/// What unsynced ranges may hold.
const PICKS: [CrashPick; 4] = [
    CrashPick::Old,
    CrashPick::New,
    CrashPick::Half,
    CrashPick::Garbage(1),
];

/// Goes on with the disk that a crash leaves.
pub fn go_on(
    alloc: Global,
    disk: &mut MemDisk,
    text: &str,
    answer: &mut String,
) -> Result<bool, AllocError> {
    match crashed(alloc, disk, text)? {
        Some(left) => *disk = left,
        None => return Ok(false),
    }
    answer.push_str("ok")?;
    Ok(true)
}

/// How many home pages there are after a crash.
pub fn put_pages(
    alloc: Global,
    disk: &MemDisk,
    text: &str,
    answer: &mut String,
) -> Result<bool, AllocError> {
    match crash_of(text) {
        Some((call, pick)) => put_opened(alloc, disk, call, pick, answer),
        None => Ok(false),
    }
}

/// The bytes that a crash leaves.
pub fn put_left(
    alloc: Global,
    disk: &MemDisk,
    text: &str,
    answer: &mut String,
) -> Result<bool, AllocError> {
    match crashed(alloc, disk, text)? {
        Some(left) => put_bytes(answer, left.bytes()),
        None => Ok(false),
    }
}

/// How many home pages there may be after a crash in one of these calls: each answer once, in the order in which
/// they came.
pub fn put_all_pages(
    alloc: Global,
    disk: &MemDisk,
    text: &str,
    answers: &mut String,
) -> Result<bool, AllocError> {
    let Some((first, last)) = calls_of(text) else {
        return Ok(false);
    };
    let mut answer = String::new(alloc);
    for call in first..last.min(1000) + 1 {
        if !add_answers(alloc, disk, call, &mut answer, answers)? {
            return Ok(false);
        }
    }
    Ok(true)
}

// The first and the last call.
fn calls_of(text: &str) -> Option<(u64, u64)> {
    let (first, last) = named_row(text)?;
    Some((number_in(first)?, number_in(last)?))
}

// Puts the answers after a crash in this call behind the others; `answer` holds one of them. False: there is no such
// call.
fn add_answers(
    alloc: Global,
    disk: &MemDisk,
    call: u64,
    answer: &mut String,
    answers: &mut String,
) -> Result<bool, AllocError> {
    for pick in PICKS {
        answer.clear();
        if !put_opened(alloc, disk, call, pick, answer)? {
            return Ok(false);
        }
        add_answer(answers, answer.as_str())?;
    }
    Ok(true)
}

// What opening answers after a crash. False: there is no such call.
fn put_opened(
    alloc: Global,
    disk: &MemDisk,
    call: u64,
    pick: CrashPick,
    answer: &mut String,
) -> Result<bool, AllocError> {
    match crashed_in(alloc, disk, call, pick)? {
        Some(left) => put_outcome(answer, opened_once(left)),
        None => Ok(false),
    }
}

// Puts an answer behind the others, where it is not among them.
fn add_answer(answers: &mut String, answer: &str) -> Result<(), AllocError> {
    if has_word(answers.as_str(), answer) {
        return Ok(());
    }
    if !answers.is_empty() {
        answers.push_str(" ")?;
    }
    answers.push_str(answer)
}

fn has_word(text: &str, word: &str) -> bool {
    for other in text.split(' ') {
        if other == word {
            return true;
        }
    }
    false
}

// What a crash leaves, in the call with this number, with this pick.
fn crashed(alloc: Global, disk: &MemDisk, text: &str) -> Result<Option<MemDisk>, AllocError> {
    match crash_of(text) {
        None => Ok(None),
        Some((call, pick)) => crashed_in(alloc, disk, call, pick),
    }
}

// The number of a call, and a pick.
fn crash_of(text: &str) -> Option<(u64, CrashPick)> {
    let (call, pick) = named_row(text)?;
    Some((number_in(call)?, pick_of(pick)?))
}

fn crashed_in(
    alloc: Global,
    disk: &MemDisk,
    call: u64,
    pick: CrashPick,
) -> Result<Option<MemDisk>, AllocError> {
    if call < 1 || call > disk.calls() {
        return Ok(None);
    }
    match disk.after_crash(alloc, call, pick) {
        Ok(left) => Ok(Some(left)),
        Err(_) => Err(AllocError),
    }
}

fn pick_of(text: &str) -> Option<CrashPick> {
    match named_row(text)? {
        ("old", _) => Some(CrashPick::Old),
        ("new", _) => Some(CrashPick::New),
        ("half", _) => Some(CrashPick::Half),
        ("garbage", byte) => Some(CrashPick::Garbage(byte.parse::<u8>().ok()?)),
        _ => None,
    }
}
