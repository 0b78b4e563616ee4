//! Who publishes.
ghost use Rattle.std.specs.Prelude.{◌≡◌, ◌+◌, ◌∷◌, ◌++◌, [], ◌↔◌, drop, length, false, true, Some, IsErrOf, OnErr, OnOk, OnSome, IfSome, MatchBool};
ghost use Rattle.std.specs.Bool.{OnTrue};
ghost use Rattle.left_right.specs.Sides.{view as knowledge};
ghost use Rattle.table_versions.specs.Steps.{steps_of, steps_of_all, steps_to};
ghost use Rattle.table_versions.specs.declared.publisher.PublishRefused.TheVariants.{Stopped};

use crate::front::{Front, Head};
use crate::rule::{Published, Sees, View};
use crate::shown::{Shown, Step};
use crate::told::Told;
use left_right::writer::Writer;
use map_query::box_in;
use osm_base::{Delta, RowChange, RowChanges};
use std::marker::Model;
use std::sync::Wait;

/// The two copies of what readers are shown, and the steps that one of them lacks.
pub(crate) type Board = Writer<Shown, Step, View, Published>;

/// Why nothing was published.
#[derive(Clone, Copy, PartialEq, Eq)]
pub enum PublishRefused {
    /// An earlier publish was refused.
    Stopped,
    OutOfMemory,
}

/// What shows readers each delta. End it by `end`.
pub struct Publisher {
    board: Option<Board>,
    stopped: Option<Board>,
    head: Head,
    front: Front,
}

impl Model for Publisher {
    ghost use Rattle.std.specs.Prelude.{◌≡◌, [], drop, is_none, Some, IfSome};
    ghost use Rattle.left_right.specs.Sides.{view as knowledge};
    ghost use Rattle.table_versions.specs.Views.{PublisherOf, publisher_code};

    ghost Value = { PublisherOf };

    ghost coded = { publisher_code };

    ghost view = { λ own. record { front = own.front; stopped = is_none own.board } };

    ghost invariant = { λ own. (own.head ≡ own.front.book)
        × IfSome own.board (λ board. (knowledge board.desk.place ≡ Some own.front.book) × (board.desk.shown.value.front ≡ own.front) × (drop board.behind board.log.items ≡ [])) };
}

impl Publisher {
    /// A publisher over a board that shows what this front has.
    pub(crate) fn over(board: Board, head: Head, front: Front) -> Self
        requires head { head ≡ front.book }
        requires knows { knowledge board.desk.place ≡ Some front.book }
        requires shown { board.desk.shown.value.front ≡ front }
        requires pending { drop board.behind board.log.items ≡ [] }
        ensures over { result ≡ record { front = front; stopped = false } }
    {
        Self {
            board: Some(board),
            stopped: None,
            head,
            front,
        }
    }

    /// What was published, for a reader to learn.
    pub fn tell(&mut self) -> Told
        ensures told { result ≡ self.old.front }
        ensures same { self.new ≡ self.old }
    {
        Told {
            front: self.front.again(),
        }
    }

    /// Shows readers the version that a delta makes, at once and whole. It may wait for readers. After `Err` nothing
    /// was published, and nothing is any more.
    pub fn publish<R: Wait>(&mut self, rt: &R, delta: Delta) -> Result<(), PublishRefused>
        requires next { delta.version ≡ self.old.front.base + length self.old.front.log + 1 }
        ensures ok { OnOk result (self.new ≡ record self.old { front = record self.old.front { log = self.old.front.log ++ delta ∷ [] } }) }
        ensures err { OnErr result (self.new ≡ record self.old { stopped = true }) }
        ensures stopped { IsErrOf result Stopped ↔ (self.old.stopped ≡ true) }
    {
        let Some(board) = self.board.take() else {
            return Err(PublishRefused::Stopped);
        };
        let Some(front) = longer(&self.head, &self.front, &delta) else {
            put(rt, &mut self.stopped, board);
            return Err(PublishRefused::OutOfMemory);
        };
        let (board, done) = show(rt, board, front.again(), delta);
        if !done {
            put(rt, &mut self.stopped, board);
            return Err(PublishRefused::OutOfMemory);
        }
        put(rt, &mut self.board, board);
        self.front = front;
        Ok(())
    }

    /// Ends it. It waits for readers, who are shown nothing any more.
    pub fn end<R: Wait>(self, rt: &R) {
        let Self {
            board,
            stopped,
            head: _head,
            front: _front,
        } = self;
        take(rt, board);
        take(rt, stopped);
    }
}

/// Puts a board where none is.
fn put<R: Wait>(rt: &R, place: &mut Option<Board>, board: Board)
    ensures put { place.new ≡ Some board }
{
    take(rt, place.replace(board));
}

/// Ends a board, if there is one.
fn take<R: Wait>(rt: &R, board: Option<Board>) {
    match board {
        Some(board) => {
            board.take(rt);
        }
        None => {}
    }
}

/// The front behind this one, which has this delta too. `None`: the history has no room for it, or went on without us.
fn longer(head: &Head, front: &Front, delta: &Delta) -> Option<Front>
    requires same { head.now ≡ front.now.book }
    ensures longer { IfSome result (λ next. next ≡ record front.now { log = front.now.log ++ delta.now ∷ [] }) }
{
    let mut next = front.again();
    if next.len() >= 1 << 62 || !next.add(head, delta) {
        return None;
    }
    Some(next)
}

/// Shows readers the version that a delta makes, and says whether it did.
fn show<R: Wait>(rt: &R, mut board: Board, front: Front, delta: Delta) -> (Board, bool)
    requires knows { knowledge board.desk.place ≡ Some front.book }
    requires front { front ≡ record board.desk.shown.value.front { log = board.desk.shown.value.front.log ++ delta ∷ [] } }
    requires version { delta.version ≡ board.desk.shown.value.front.base + length board.desk.shown.value.front.log + 1 }
    requires pending { drop board.behind board.log.items ≡ [] }
    ensures shown { OnTrue result.1 ((knowledge result.0.desk.place ≡ Some front.book) × (result.0.desk.shown.value.front ≡ front) × (drop result.0.behind result.0.log.items ≡ [])) }
{
    if !queue(&mut board, front, delta) {
        return (board, false);
    }
    let (board, done) = board.publish_as::<Sees, R>(rt);
    (board, done.is_ok())
}

/// Hands in the steps to the version that a delta makes, and says whether it did.
fn queue(board: &mut Board, front: Front, delta: Delta) -> bool
    requires pending { drop board.old.behind board.old.log.items ≡ [] }
    ensures desk { board.new.desk ≡ board.old.desk }
    ensures queued { OnTrue result (drop board.new.behind board.new.log.items ≡ steps_to delta front) }
{
    let Delta { version, changes } = delta;
    queue_changes(board, changes) && board.append(Step::Whole { version, front }).is_ok()
}

/// Hands in the steps of changes of rows, and says whether it did.
fn queue_changes(board: &mut Board, changes: RowChanges) -> bool
    requires pending { drop board.old.behind board.old.log.items ≡ [] }
    ensures desk { board.new.desk ≡ board.old.desk }
    ensures queued { OnTrue result (drop board.new.behind board.new.log.items ≡ steps_of_all changes) }
{
    for change in changes.into_vec() {
        if !queue_change(board, change) {
            return false;
        }
    }
    true
}

/// Hands in the steps of one, and says whether it did.
fn queue_change(board: &mut Board, change: RowChange) -> bool
    ensures desk { board.new.desk ≡ board.old.desk }
    ensures queued { OnTrue result (drop board.new.behind board.new.log.items ≡ drop board.old.behind board.old.log.items ++ steps_of change) }
{
    let around = box_in(&change.row);
    let table = change.table;
    let key = change.key;
    board.append(Step::Boxed { table, key, around }).is_ok()
        && board.append(Step::Changed { change }).is_ok()
}
