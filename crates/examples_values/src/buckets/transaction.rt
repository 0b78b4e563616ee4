//! A transaction of an example.
ghost use Rattle.std.specs.Prelude.{◌≡◌, false};
ghost use Rattle.bucket_store.specs.Transaction.{has_refused};

use crate::buckets::deeds::answer_of;
use bucket_store::{Buckets, open};
use doubles::MemDisk;
use osm_base::Limits;
use std::alloc::{AllocError, Global};

/// Opens the store, does these deeds in one transaction and answers for each of them, and for the commit where they
/// are to stand. The first refusal is the last answer.
pub fn transaction(
    alloc: Global,
    disk: &mut MemDisk,
    deeds: &str,
    stands: bool,
) -> Result<String, AllocError> {
    let limits = Limits::standard();
    let opened = match open(alloc, disk, &limits) {
        Ok(opened) => opened,
        Err(fault) => return format!(in alloc; "{fault}"),
    };
    let mut buckets = Buckets::on(alloc, disk, &limits, opened);
    let answers = answers_of(alloc, &mut buckets, deeds, stands);
    let mut kept = None;
    let _disk = buckets.hand_back(&mut kept);
    answers
}

// The answers of the deeds.
fn answers_of(
    alloc: Global,
    buckets: &mut Buckets<'_, MemDisk>,
    deeds: &str,
    stands: bool,
) -> Result<String, AllocError>
    requires { has_refused buckets.old ≡ false }
{
    let mut answers = String::new(alloc);
    for deed in deeds.split(';') {
        let text = match answer_of(alloc, buckets, deed) {
            Ok(text) => text,
            Err(fault) => {
                let told = format!(in alloc; "{fault}")?;
                push_answer(&mut answers, told.as_str())?;
                return Ok(answers);
            }
        };
        push_answer(&mut answers, text.as_str())?;
    }
    if stands {
        let told = commit(alloc, buckets)?;
        push_answer(&mut answers, told.as_str())?;
    }
    Ok(answers)
}

// Makes the transaction stand.
fn commit(alloc: Global, buckets: &mut Buckets<'_, MemDisk>) -> Result<String, AllocError>
    requires { has_refused buckets.old ≡ false }
{
    match buckets.commit() {
        Ok(()) => String::from_str(alloc, "ok"),
        Err(fault) => format!(in alloc; "{fault}"),
    }
}

// Puts an answer behind the others.
fn push_answer(answers: &mut String, answer: &str) -> Result<(), AllocError> {
    if !answers.is_empty() {
        answers.push_str("; ")?;
    }
    answers.push_str(if answer.is_empty() { "-" } else { answer })
}
