//! Examples of the machine of the stages.
ghost use Rattle.std.specs.Prelude.{◌≡◌, ◌<◌, IfSome};

use crate::refusal::Refusal;
use example_table::{named_row, number_in};
use pending_book::{Book, Seat};
use stage_core::{CoreState, Event};
use std::alloc::Global;

/// A row `TICKETS WORKERS READERS STEP..`: a `y` for each step that is possible, and an `n` for each other. A
/// step is `draw0`, `build0` or `end0` of worker 0, `commit`, `publish`, `ack`, `enter0` of reader 0, or `crash`.
pub fn steps(alloc: Global, given: &str, out: &mut String) -> Result<(), Refusal> {
    let Some((tickets, workers, readers, steps)) = given_by(given) else {
        return Err(Refusal::NoRow);
    };
    let mut state = CoreState::new(alloc, tickets, workers, readers)?;
    take_all(&mut state, steps, out)
}

/// The numbers of a row, and its steps.
fn given_by(text: &str) -> Option<(u32, u32, u32, &str)> {
    let (tickets, rest) = named_row(text)?;
    let (workers, rest) = named_row(rest)?;
    let (readers, steps) = named_row(rest)?;
    Some((small(tickets)?, small(workers)?, small(readers)?, steps))
}

/// Takes the steps of words, and adds whether each was possible.
fn take_all(state: &mut CoreState, words: &str, out: &mut String) -> Result<(), Refusal> {
    for word in words.split_ascii_whitespace() {
        match event_of(word) {
            Some(event) => take(state, event, out)?,
            None => return Err(Refusal::NoRow),
        }
    }
    Ok(())
}

/// A number below a hundred.
fn small(word: &str) -> Option<u32>
    ensures small { IfSome result (λ number. number < 100) }
{
    let number = number_in(word)?;
    if number < 100 {
        Some(number as u32)
    } else {
        None
    }
}

fn event_of(word: &str) -> Option<Event> {
    match word {
        "commit" => Some(Event::Commit),
        "publish" => Some(Event::Publish),
        "ack" => Some(Event::Ack),
        "crash" => Some(Event::Crash),
        _ => numbered_event(word),
    }
}

fn numbered_event(word: &str) -> Option<Event> {
    if let Some(number) = word.strip_prefix("draw") {
        return Some(Event::Draw(small(number)?));
    }
    if let Some(number) = word.strip_prefix("build") {
        return Some(Event::Build(small(number)?));
    }
    if let Some(number) = word.strip_prefix("end") {
        return Some(Event::End(small(number)?));
    }
    Some(Event::Enter(small(word.strip_prefix("enter")?)?))
}

/// Takes a step, and adds whether it was possible.
fn take(state: &mut CoreState, event: Event, out: &mut String) -> Result<(), Refusal> {
    let possible = state.step(event)?;
    out.push(if possible { 'y' } else { 'n' })?;
    Ok(())
}

/// A row `TICKETS`, an even number: two seats of a book draw by turns. Each draw is an event of the machine, a ticket is built
/// at once, and a seat without one ends; then the change is committed, told, published and seen. The answers.
pub fn played(alloc: Global, given: &str, out: &mut String) -> Result<(), Refusal> {
    let Some(tickets) = small(given) else {
        return Err(Refusal::NoRow);
    };
    if tickets % 2 == 1 {
        return Err(Refusal::NoRow);
    }
    let mut state = CoreState::new(alloc, tickets, 2, 1)?;
    play(alloc, tickets, &mut state, out)
}

/// The events of two seats that draw all tickets, and of what follows.
fn play(alloc: Global, tickets: u32, state: &mut CoreState, out: &mut String) -> Result<(), Refusal>
    requires few { tickets < 100 }
{
    let (book, mut first) = Book::new(alloc, tickets, 2)?;
    let mut second = book.split(&mut first, 1);
    play_all(&book, &mut first, &mut second, state, tickets / 2 + 1, out)?;
    take_all(state, "commit ack publish enter0", out)
}

/// The events of two seats that draw by turns.
fn play_all(
    book: &Book,
    first: &mut Seat,
    second: &mut Seat,
    state: &mut CoreState,
    rounds: u32,
    out: &mut String,
) -> Result<(), Refusal>
    requires first { first.old.book ≡ book.now }
    requires second { second.old.book ≡ book.now }
{
    for _ in 0..rounds {
        play_one(state, 0, book.draw(first), out)?;
        play_one(state, 1, book.draw(second), out)?;
    }
    Ok(())
}

/// The events of a draw and of what follows it.
fn play_one(
    state: &mut CoreState,
    worker: u32,
    drawn: Option<u32>,
    out: &mut String,
) -> Result<(), Refusal> {
    take(state, Event::Draw(worker), out)?;
    match drawn {
        Some(_) => take(state, Event::Build(worker), out),
        None => take(state, Event::End(worker), out),
    }
}
