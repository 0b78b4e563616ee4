//! Examples of files that are read ahead, and of a pipe of which one thread has both ends.
ghost use Rattle.std.specs.Prelude.{◌≡◌, ◌<◌, ◌≤◌, IfSome, OnOk};
ghost use Rattle.change_pipe.specs.declared.pipe.TheConstants.{MAX_AHEAD};

use crate::refusal::Refusal;
use change_pipe::{
    ChangeFiles, MAX_AHEAD, Parcel, ParcelBody, Pipe, Putter, Taker, make_pipe, read_ahead,
};
use doubles::{Fails, MemInputs};
use example_table::{bytes_of, named_row, number_in};
use opl_files::FileFault;
use osm_base::{Bytes, FileList, Ids, Limits};
use std::alloc::Global;
use std::sync::Wait;
use std::thread::Threads;

/// A row `AHEAD WORKERS FAILING FILE..`: what these files are read as, so many of them ahead and each by so many workers, where the
/// read of that number fails, or none as 0.
pub fn ahead<R: Threads + Wait + Sync>(
    rt: &R,
    alloc: Global,
    given: &str,
    out: &mut String,
) -> Result<(), Refusal> {
    let Some((ahead, workers, failing, words)) = given_by(given) else {
        return Err(Refusal::NoRow);
    };
    let files = files_of(alloc, words)?;
    let Some(count) = few_of(files.len()) else {
        return Err(Refusal::NoRow);
    };
    let mut inputs = MemInputs::new(FileList::from_vec(files), fails_of(alloc, failing)?);
    let asked = ChangeFiles { first: 0, count };
    let limits = Limits::standard();
    push_parcels(
        &read_ahead(rt, alloc, &mut inputs, asked, &limits, workers, ahead)?,
        out,
    )
}

/// The numbers of a row, and its files.
fn given_by(text: &str) -> Option<(usize, u32, u64, &str)>
    ensures some { IfSome result (λ (ahead, _, _, _). 1 ≤ ahead) }
    ensures few { IfSome result (λ (ahead, _, _, _). ahead ≤ MAX_AHEAD) }
    ensures workers { IfSome result (λ (_, workers, _, _). 0 < workers) }
{
    let (ahead, rest) = named_row(text)?;
    let (workers, rest) = named_row(rest)?;
    let (failing, files) = named_row(rest)?;
    Some((
        places_of(ahead)?,
        workers_of(workers)?,
        number_in(failing)?,
        files,
    ))
}

/// How many workers read a file, if there are some.
fn workers_of(word: &str) -> Option<u32>
    ensures some { IfSome result (λ workers. 0 < workers) }
{
    let workers = u32::try_from(number_in(word)?).ok()?;
    if workers > 0 { Some(workers) } else { None }
}

/// How many parcels a pipe holds, if it may hold as many.
fn places_of(word: &str) -> Option<usize>
    ensures some { IfSome result (λ ahead. 1 ≤ ahead) }
    ensures few { IfSome result (λ ahead. ahead ≤ MAX_AHEAD) }
{
    let ahead = usize::try_from(number_in(word)?).ok()?;
    if 1 <= ahead && ahead <= MAX_AHEAD {
        Some(ahead)
    } else {
        None
    }
}

/// So many files, if they are few.
fn few_of(count: usize) -> Option<u32>
    ensures few { IfSome result (λ count. count ≤ 100) }
{
    let count = u32::try_from(count).ok()?;
    if count <= 100 { Some(count) } else { None }
}

/// The files that words write, or none as `-`.
fn files_of(alloc: Global, words: &str) -> Result<Vec<Bytes>, Refusal> {
    let mut files = Vec::new(alloc);
    for word in words.split_ascii_whitespace() {
        match bytes_of(alloc, word)? {
            Some(file) if word != "-" => files.push(Bytes::from_vec(file))?,
            Some(_) => {}
            None => return Err(Refusal::NoRow),
        }
    }
    Ok(files)
}

/// That the read of this number fails, or none where it is 0.
fn fails_of(alloc: Global, failing: u64) -> Result<Fails, Refusal> {
    let mut at = Vec::new(alloc);
    if failing != 0 {
        at.push(failing)?;
    }
    Ok(Fails::new(Ids::from_vec(at), 0))
}

/// Adds what each parcel says of its file.
fn push_parcels(parcels: &[Parcel], out: &mut String) -> Result<(), Refusal> {
    for parcel in parcels {
        push_blank(out)?;
        let file = parcel.file;
        match &parcel.body {
            ParcelBody::Whole(change) => {
                let count = change.entries().len();
                write!(out, "{file} has {count};")?;
            }
            ParcelBody::Refused(fault) => write!(out, "{file} refused, {fault};")?,
        }
    }
    Ok(())
}

/// A row `AHEAD STEP..`: what the steps answer that one thread makes with both ends of a pipe. A parcel has the number of its step, from 0.
/// Steps are `put`, `take`, and, where they wait, `wait` and `get`; `stop`; `begin` and `begun`.
pub fn pipe<R: Wait>(rt: &R, alloc: Global, given: &str, out: &mut String) -> Result<(), Refusal> {
    let Some((ahead, steps)) = named_row(given) else {
        return Err(Refusal::NoRow);
    };
    let Some(ahead) = places_of(ahead) else {
        return Err(Refusal::NoRow);
    };
    let (pipe, mut putter, mut taker) = make_pipe(alloc, ahead)?;
    step_all(rt, &pipe, &mut putter, &mut taker, steps, out)?;
    pipe.end(putter, taker);
    Ok(())
}

/// Makes the steps of words, and adds their answers.
fn step_all<R: Wait>(
    rt: &R,
    pipe: &Pipe,
    putter: &mut Putter,
    taker: &mut Taker,
    words: &str,
    out: &mut String,
) -> Result<(), Refusal>
    requires ours { (putter.old.home ≡ pipe.now.home) × (taker.old.home ≡ pipe.now.home) }
    ensures ours { OnOk result ((putter.new.home ≡ pipe.now.home) × (taker.new.home ≡ pipe.now.home)) }
{
    let mut number: u32 = 0;
    for word in words.split_ascii_whitespace() {
        let parcel = Parcel {
            file: number,
            body: ParcelBody::Refused(FileFault::ReadFault),
        };
        push_blank(out)?;
        step(rt, pipe, putter, taker, word, parcel, out)?;
        number = number.saturating_add(1);
    }
    Ok(())
}

/// Makes the step of a word, and adds its answer.
fn step<R: Wait>(
    rt: &R,
    pipe: &Pipe,
    putter: &mut Putter,
    taker: &mut Taker,
    word: &str,
    parcel: Parcel,
    out: &mut String,
) -> Result<(), Refusal>
    requires ours { (putter.old.home ≡ pipe.now.home) × (taker.old.home ≡ pipe.now.home) }
    ensures ours { OnOk result ((putter.new.home ≡ pipe.now.home) × (taker.new.home ≡ pipe.now.home)) }
{
    match word {
        "put" => push_answer(pipe.put(rt, putter, parcel).is_ok(), "put", "full", out),
        "wait" => push_answer(
            pipe.put_when_room(rt, putter, parcel),
            "put",
            "stopped",
            out,
        ),
        "take" => push_taken(pipe.take(rt, taker), out),
        "get" => push_taken(Some(pipe.take_when_ready(rt, taker)), out),
        _ => call(rt, pipe, word, out),
    }
}

/// Calls what needs neither end, and adds its answer.
fn call<R: Wait>(rt: &R, pipe: &Pipe, word: &str, out: &mut String) -> Result<(), Refusal> {
    match word {
        "stop" => {
            pipe.stop();
            push_answer(true, "stop", "", out)
        }
        "begin" => push_answer(pipe.begin(), "begins", "too late", out),
        "begun" => push_answer(pipe.has_begun(rt), "begun", "nobody", out),
        _ => Err(Refusal::NoRow),
    }
}

/// Adds a blank behind what was answered before.
fn push_blank(out: &mut String) -> Result<(), Refusal> {
    if !out.is_empty() {
        out.push_str(" ")?;
    }
    Ok(())
}

/// Adds one word for true, and another one for false.
fn push_answer(is: bool, word: &str, other: &str, out: &mut String) -> Result<(), Refusal> {
    out.push_str(if is { word } else { other })?;
    Ok(())
}

/// Adds the number of a parcel, where there is one.
fn push_taken(parcel: Option<Parcel>, out: &mut String) -> Result<(), Refusal> {
    match parcel {
        Some(parcel) => {
            let number = parcel.file;
            write!(out, "{number}")?;
        }
        None => out.push_str("none")?,
    }
    Ok(())
}
