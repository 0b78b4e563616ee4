//! An example of each kind, and what it answers.

use crate::bounded::answers_under;
use crate::counted::reads_of;
use crate::crashed::crashes_of;
use crate::end::{End, push_end};
use crate::followed::follows_of;
use crate::history::histories;
use crate::opening::push_after;
use crate::setting::{Rules, Setting};
use example_table::number_in;
use osm_base::{LimitNumbers, Limits};
use std::alloc::Global;
use std::fs::{self, Files};
use std::io;
use std::thread::Threads;

/// What the words of an example give: numbers, and texts of files.
#[derive(Drop)]
struct Given {
    numbers: Vec<u64>,
    texts: Vec<String>,
}

/// What an example of this kind answers, given these words or deeds.
pub fn answer_of<R: Threads + Sync + Files + AllocGlobal>(
    rt: &R,
    rules: &Rules,
    kind: &str,
    given: &str,
) -> io::Result<String> {
    let mut answer = String::new(rt.alloc());
    match kind {
        "histories" | "limits" | "reads" | "crashes" | "follows" => {
            push_stepped(rt, rules, kind, given, &mut answer)?
        }
        _ => {
            if !push_after(rt.alloc(), kind, given, &mut answer)? {
                answer.push_str("no example")?;
            }
        }
    }
    Ok(answer)
}

// Adds what a step of this kind answers to these words.
fn push_stepped<R: Threads + Sync + Files + AllocGlobal>(
    rt: &R,
    rules: &Rules,
    kind: &str,
    words: &str,
    answer: &mut String,
) -> io::Result<()> {
    let given = given_by(rt, words)?;
    if let Err(end) = push_answer(rt, rt.alloc(), rules, kind, &given, answer) {
        push_end(answer, end)?;
    }
    Ok(())
}

// What words give.
fn given_by<R: Files + AllocGlobal>(rt: &R, words: &str) -> io::Result<Given> {
    let mut given = Given {
        numbers: Vec::new(rt.alloc()),
        texts: Vec::new(rt.alloc()),
    };
    for word in words.split_ascii_whitespace() {
        take(rt, &mut given, word)?;
    }
    Ok(given)
}

// Takes up a word: a number, `clear` for an empty text, or the path of a file.
fn take<R: Files + AllocGlobal>(rt: &R, given: &mut Given, word: &str) -> io::Result<()> {
    if let Some(number) = number_in(word) {
        given.numbers.push(number)?;
    } else if word == "clear" {
        given.texts.push(String::new(rt.alloc()))?;
    } else {
        given.texts.push(fs::read_to_string(rt, word)?)?;
    }
    Ok(())
}

// Adds what an example of this kind answers.
fn push_answer<R: Threads + Sync>(
    rt: &R,
    alloc: Global,
    rules: &Rules,
    kind: &str,
    given: &Given,
    out: &mut String,
) -> Result<(), End> {
    match (kind, given.numbers.as_slice(), given.texts.as_slice()) {
        ("histories", [first, count], []) => histories(rt, alloc, rules, *first, *count, out),
        ("limits", [buckets, pages, pending], [style, first, change]) => {
            let setting = Setting {
                style: style.as_str(),
                buckets: *buckets,
                workers: 1,
            };
            let limits = limits_of(*pages, *pending);
            let texts = [first.as_str(), change.as_str()];
            answers_under(rt, alloc, &limits, &rules.bounds, setting, texts, out)
        }
        ("reads", [buckets, nodes], []) => {
            reads_of(rt, alloc, &rules.bounds, *buckets, *nodes, out)
        }
        ("crashes", [buckets], [first, change, deed]) => {
            let texts = [first.as_str(), change.as_str(), deed.as_str()];
            crashes_of(rt, alloc, rules, *buckets, texts, out)
        }
        ("follows", [blocks], [feed]) => follows_of(alloc, *blocks, feed.as_str(), out),
        _ => Ok(out.push_str("no example")?),
    }
}

// The limits with so many pages and pending objects; the standard ones where those are none.
fn limits_of(pages: u64, pending: u64) -> Limits {
    let standard = Limits::standard();
    let numbers = standard.numbers();
    Limits::new(LimitNumbers {
        pages,
        pending,
        ..numbers
    })
    .unwrap_or(standard)
}
