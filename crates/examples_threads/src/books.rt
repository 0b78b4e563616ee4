//! Examples of the book of tickets, in one thread.
ghost use Rattle.std.specs.Prelude.{◌≡◌, OnOk};

use crate::refusal::Refusal;
use example_table::{named_row, number_in};
use pending_book::{Book, Seat};
use std::alloc::Global;

/// The most tickets that an example has.
const MOST: u32 = 1000;

/// A row `TICKETS SHARE DRAWS`: a seat with all shares draws so often. The tickets that it got, and how
/// many draws the book counts once the seat has had a None.
pub fn whole(alloc: Global, given: &str, out: &mut String) -> Result<(), Refusal> {
    let Some((tickets, share, draws)) = given_by(given) else {
        return Err(Refusal::NoRow);
    };
    out.push_str("got")?;
    let draws = draws_of_one(alloc, tickets, share, draws, out)?;
    write!(out, " draws {draws}")?;
    Ok(())
}

/// The numbers of a row.
fn given_by(text: &str) -> Option<(u32, u32, u32)> {
    let (tickets, rest) = named_row(text)?;
    let (share, draws) = named_row(rest)?;
    Some((few_of(tickets)?, few_of(share)?, few_of(draws)?))
}

/// A number that is not too great.
fn few_of(word: &str) -> Option<u32> {
    u32::try_from(number_in(word)?).ok()
}

/// A seat with all shares draws so often, the last time in vain. Its tickets are added to a text. The draws.
fn draws_of_one(
    alloc: Global,
    tickets: u32,
    share: u32,
    draws: u32,
    out: &mut String,
) -> Result<u64, Refusal> {
    if tickets > MOST || share < 1 || share > 64 {
        return Err(Refusal::NoRow);
    }
    let (book, mut seat) = Book::new(alloc, tickets, share)?;
    draw_often(&book, &mut seat, draws.saturating_sub(1), out)?;
    match book.draw(&mut seat) {
        Some(_) => Err(Refusal::NoRow),
        None => Ok(book.close(seat).draws()),
    }
}

/// A row `TICKETS`: two seats draw by turns until each has a None. The tickets of both, and the draws.
pub fn by_turns(alloc: Global, given: &str, out: &mut String) -> Result<(), Refusal> {
    let Some(tickets) = few_of(given) else {
        return Err(Refusal::NoRow);
    };
    let mut seconds = String::new(alloc);
    out.push_str("first")?;
    let draws = draws_of_two(alloc, tickets, out, &mut seconds)?;
    write!(out, " second{seconds} draws {draws}")?;
    Ok(())
}

/// Two seats draw by turns, each the last time in vain. The tickets of each are added to its text. The draws.
fn draws_of_two(
    alloc: Global,
    tickets: u32,
    firsts: &mut String,
    seconds: &mut String,
) -> Result<u64, Refusal> {
    if tickets > MOST {
        return Err(Refusal::NoRow);
    }
    let (book, mut first) = Book::new(alloc, tickets, 2)?;
    let mut second = book.split(&mut first, 1);
    draw_by_turns(&book, &mut first, &mut second, tickets + 1, firsts, seconds)?;
    if book.draw(&mut first).is_some() || book.draw(&mut second).is_some() {
        return Err(Refusal::NoRow);
    }
    book.join(&mut first, second);
    Ok(book.close(first).draws())
}

/// Draws so often with a seat, and adds its tickets.
fn draw_often(book: &Book, seat: &mut Seat, times: u32, out: &mut String) -> Result<(), Refusal>
    requires ours { seat.old.book ≡ book.now }
    ensures ours { OnOk result ((seat.new.book ≡ book.now) × (seat.new.share ≡ seat.old.share)) }
{
    for _ in 0..times {
        push_ticket(book.draw(seat), out)?;
    }
    Ok(())
}

/// Draws by turns with two seats, and adds the tickets of each.
fn draw_by_turns(
    book: &Book,
    first: &mut Seat,
    second: &mut Seat,
    rounds: u32,
    firsts: &mut String,
    seconds: &mut String,
) -> Result<(), Refusal>
    requires first { first.old.book ≡ book.now }
    requires second { second.old.book ≡ book.now }
    ensures first { OnOk result ((first.new.book ≡ book.now) × (first.new.share ≡ first.old.share)) }
    ensures second { OnOk result ((second.new.book ≡ book.now) × (second.new.share ≡ second.old.share)) }
{
    for _ in 0..rounds {
        push_ticket(book.draw(first), firsts)?;
        push_ticket(book.draw(second), seconds)?;
    }
    Ok(())
}

/// Adds a ticket, where there is one.
fn push_ticket(ticket: Option<u32>, out: &mut String) -> Result<(), Refusal> {
    if let Some(ticket) = ticket {
        write!(out, " {ticket}")?;
    }
    Ok(())
}
