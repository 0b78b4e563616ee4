//! How a publisher and its readers come to be.
ghost use Rattle.std.specs.Prelude.{◌≡◌, ◌≤◌, ◌++◌, ◌∷◌, [], drop, false, length, Some, All, IfOk, IfNone, IfSome, OnOk};
ghost use Rattle.std.specs.Bool.{OnTrue};
ghost use Rattle.left_right.specs.Sides.{view as knowledge};
ghost use Rattle.map_query.specs.RowBoxes.{IsBoxed};
ghost use Rattle.table_versions.specs.Rule.{IsVersion};
ghost use Rattle.table_versions.specs.Views.{IsNewReader};

use crate::front::{Front, open_history};
use crate::publisher::{Board, Publisher};
use crate::reader::{Handle, MapReader};
use crate::rule::{Notes, Opens};
use crate::shown::Shown;
use left_right::writer::Writer;
use map_query::{CountedTables, boxes_of};
use osm_base::{OutOfMemory, Tables, TryCopy};
use std::alloc::Global;
use std::marker::Model;
use std::sync::Wait;
use style_read::Style;

/// Readers that nobody has taken yet.
#[derive(Drop)]
pub struct MapReaders {
    readers: Vec<MapReader>,
}

impl Model for MapReaders {
    ghost use Rattle.std.specs.Prelude.{List};
    ghost use Rattle.std.specs.Coded.{coded_list};
    ghost use Rattle.table_versions.specs.Views.{ReaderOf, reader_code};

    ghost Value = { List ReaderOf };

    ghost coded = { coded_list reader_code };

    ghost view = { λ own. own.readers.items };
}

impl MapReaders {
    /// The next reader. `None`: none is left.
    pub fn pop(&mut self) -> Option<MapReader>
        ensures next { IfSome result (λ reader. self.old ≡ self.new ++ reader ∷ []) }
        ensures none { IfNone result ((self.old ≡ []) × (self.new ≡ [])) }
    {
        self.readers.pop()
    }
}

/// A publisher of these tables, which have seen so many changes, and its readers. It may wait for readers. Of the style each reader has a copy.
pub fn versions<R: Wait>(
    rt: &R,
    alloc: Global,
    style: Style,
    first: Tables,
    version: u64,
    readers: u32,
) -> Result<(Publisher, MapReaders), OutOfMemory>
    requires least { 1 ≤ readers }
    requires most { readers ≤ 64 }
    ensures publisher { IfOk result (λ (publisher, _). publisher ≡ record { front = record { book = publisher.front.book; first = first; base = version; log = [] }; stopped = false }) }
    ensures readers { IfOk result (λ (publisher, made). (length made ≡ readers) × All (IsNewReader style publisher.front) made) }
{
    let (head, front) = open_history(&first, version);
    let board = open_board(rt, alloc, &style, first, version, &front, readers)?;
    let (board, made) = make_readers(alloc, board, &style, &front, readers);
    match made {
        Ok(readers) => Ok((Publisher::over(board, head, front), MapReaders { readers })),
        Err(error) => {
            board.take(rt);
            Err(error)
        }
    }
}

/// A board that shows the first tables and knows their history.
fn open_board<R: Wait>(
    rt: &R,
    alloc: Global,
    style: &Style,
    first: Tables,
    version: u64,
    front: &Front,
    readers: u32,
) -> Result<Board, OutOfMemory>
    requires least { 1 ≤ readers }
    requires most { readers ≤ 64 }
    requires first { front.now.first ≡ first }
    requires base { front.now.base ≡ version }
    requires empty { front.now.log ≡ [] }
    ensures knows { IfOk result (λ board. knowledge board.desk.place ≡ Some front.now.book) }
    ensures shown { IfOk result (λ board. board.desk.shown.value.front ≡ front.now) }
    ensures pending { IfOk result (λ board. drop board.behind board.log.items ≡ []) }
{
    let (shown, spare) = copies(alloc, style, first, version, front)?;
    let board = match Writer::new(alloc, shown, spare, readers as usize) {
        Ok(board) => board,
        Err(_) => return Err(OutOfMemory),
    };
    let (board, done) = board.publish_as::<Opens, R>(rt);
    if done.is_err() {
        board.take(rt);
        return Err(OutOfMemory);
    }
    Ok(board)
}

/// The first version, twice, with how many rows each table of the style has.
fn copies(
    alloc: Global,
    style: &Style,
    first: Tables,
    version: u64,
    front: &Front,
) -> Result<(Shown, Shown), OutOfMemory>
    requires first { front.now.first ≡ first }
    requires base { front.now.base ≡ version }
    requires empty { front.now.log ≡ [] }
    ensures alike { IfOk result (λ (shown, spare). shown ≡ spare) }
    ensures version { IfOk result (λ (shown, _). IsVersion shown) }
    ensures front { IfOk result (λ (shown, _). shown.front ≡ front.now) }
{
    let again = first.copy(alloc)?;
    let shown = Shown {
        alloc,
        boxes: boxes_of(alloc, &first)?,
        tables: CountedTables::new(alloc, style, first)?,
        version,
        front: front.again(),
    };
    let spare = Shown {
        alloc,
        boxes: boxes_of(alloc, &again)?,
        tables: CountedTables::new(alloc, style, again)?,
        version,
        front: front.again(),
    };
    Ok((shown, spare))
}

/// So many readers of what a board shows.
fn make_readers(
    alloc: Global,
    board: Board,
    style: &Style,
    front: &Front,
    readers: u32,
) -> (Board, Result<Vec<MapReader>, OutOfMemory>)
    requires knows { knowledge board.desk.place ≡ Some front.now.book }
    ensures kept { (result.0.desk.shown ≡ board.desk.shown) × (drop result.0.behind result.0.log.items ≡ drop board.behind board.log.items) × (knowledge result.0.desk.place ≡ knowledge board.desk.place) }
    ensures readers { IfOk result.1 (λ made. (length made.items ≡ readers) × All (IsNewReader style.now front.now) made.items) }
{
    let mut board = board;
    let mut made = Vec::new(alloc);
    for _ in 0..readers {
        let handle = make_handle(&mut board);
        let style = match style.copy(alloc) {
            Ok(style) => style,
            Err(error) => return (board, Err(error)),
        };
        let reader = MapReader::new(style, handle, front);
        if !add_reader(&mut made, reader) {
            return (board, Err(OutOfMemory));
        }
    }
    (board, Ok(made))
}

/// Adds a reader, and says whether it did.
fn add_reader(made: &mut Vec<MapReader>, reader: MapReader) -> bool
    ensures added { OnTrue result (made.new.items ≡ made.old.items ++ reader ∷ []) }
{
    made.push(reader).is_ok()
}

/// A handle to what a board shows, which knows its history. `None`: `left_right` makes none.
fn make_handle(board: &mut Board) -> Option<Handle>
    ensures kept { (board.new.desk.shown ≡ board.old.desk.shown) × (drop board.new.behind board.new.log.items ≡ drop board.old.behind board.old.log.items) × (knowledge board.new.desk.place ≡ knowledge board.old.desk.place) }
    ensures knows { IfSome result (λ handle. knowledge handle.place ≡ knowledge board.old.desk.place) }
{
    let mut handle = board.factory().reader().ok()?;
    handle.learn::<Notes>(board.tell::<Notes>());
    Some(handle)
}
