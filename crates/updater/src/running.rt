//! A whole run of the program.
ghost use Rattle.std.specs.Prelude.{◌≡◌, Some, None, map};
ghost use Rattle.std.specs.Result.{result_err};
ghost use Rattle.std.specs.String.{string_bytes};
ghost use Rattle.run_promise.specs.CommandOf.{CommandOf, FilesFit};
ghost use Rattle.updater.specs.Command.{command, command_view};
ghost use Rattle.run_promise.specs.Faults.{status_of};
ghost use Rattle.run_promise.specs.Runs.{IsWrongUse, Runs};
ghost use Rattle.run_promise.specs.Safety.{IsSafe};
ghost use Rattle.run_promise.specs.World.{world};

use crate::commands::append::append;
use crate::commands::check::check;
use crate::commands::demo::demo;
use crate::commands::export::export;
use crate::commands::feed::feed;
use crate::commands::follow::follow;
use crate::commands::import::import;
use crate::commands::init::init;
use crate::commands::lines::lines;
use crate::commands::migrate::migrate;
use crate::commands::points::points;
use crate::commands::query::query;
use crate::commands::replay::replay;
use crate::commands::serve::serve;
use crate::commands::tiles::tiles;
use crate::words::{Command, command_of};
use geom_workers::Hands;
use outside::{Disk, Gate, Inputs, Sink};
use run_promise::{Fault, Outcome};
use std::alloc::Global;
use std::sync::Wait;
use std::thread::Threads;

/// Does what the words behind the program's name say. A file is told by the place of its word. The disk
/// is that of the store, if the words name one.
pub fn run<R: Threads + Wait + Sync, I: Inputs, D: Disk, S: Sink, G: Gate>(
    rt: &R,
    alloc: Global,
    words: &[String],
    inputs: &mut I,
    disk: &mut D,
    out: &mut S,
    gate: &G,
) -> Outcome
    ensures status { result.status ≡ status_of result.fault }

    // Words that are no command touch nothing.
    ensures usage { command (map string_bytes words.now) ≡ None → IsWrongUse (λ asked. I.reads inputs.old asked inputs.new)
        (world (I.view inputs.old) (D.view disk.old) (S.view out.old))
        (world (I.view inputs.new) (D.view disk.new) (S.view out.new)) result.fault }

    // Each command does what specs/Courses.antt says of it, in that order, and comes to one of the ends that it may have.
    ensures runs { (own : CommandOf) → command (map string_bytes words.now) ≡ Some own → Runs own (λ asked. I.reads inputs.old asked inputs.new)
        (world (I.view inputs.old) (D.view disk.old) (S.view out.old))
        (world (I.view inputs.new) (D.view disk.new) (S.view out.new)) result.fault }

    // Whatever the answer, a store keeps the history that it had, and behind it the steps of this run: each one at least whose
    // line, or whose block of a feed, was taken whole. So does one that was made on an empty disk.
    ensures safe { (own : CommandOf) → command (map string_bytes words.now) ≡ Some own → IsSafe own
        (world (I.view inputs.old) (D.view disk.old) (S.view out.old))
        (world (I.view inputs.new) (D.view disk.new) (S.view out.new)) result.fault }
{
    let Some(command) = command_of(words) else {
        return Outcome::of(Some(Fault::Usage));
    };
    Outcome::of(run_command(rt, alloc, command, inputs, disk, out, gate).err())
}

/// Does what a command asks for.
fn run_command<R: Threads + Wait + Sync, I: Inputs, D: Disk, S: Sink, G: Gate>(
    rt: &R,
    alloc: Global,
    command: Command,
    inputs: &mut I,
    disk: &mut D,
    out: &mut S,
    gate: &G,
) -> Result<(), Fault>
    requires fits { FilesFit (command_view command) }
    ensures runs { Runs (command_view command.entry) (λ asked. I.reads inputs.old asked inputs.new)
        (world (I.view inputs.old) (D.view disk.old) (S.view out.old))
        (world (I.view inputs.new) (D.view disk.new) (S.view out.new)) (result_err result) }
    ensures safe { IsSafe (command_view command.entry)
        (world (I.view inputs.old) (D.view disk.old) (S.view out.old))
        (world (I.view inputs.new) (D.view disk.new) (S.view out.new)) (result_err result) }
{
    match command {
        Command::Points { key, files } => points(rt, alloc, key, files, inputs, disk, out),
        Command::Lines { key, files } => lines(rt, alloc, key, files, inputs, disk, out),
        Command::Init { store: _ } => init(inputs, disk, out),
        Command::Import {
            store: _,
            files,
            buckets,
            workers,
        } => {
            let hands = Hands {
                rt,
                alloc,
                workers,
                gate,
            };
            import(&hands, files, buckets, inputs, disk, out)
        }
        Command::Append {
            store: _,
            files,
            ahead,
            workers,
        } => {
            let hands = Hands {
                rt,
                alloc,
                workers,
                gate,
            };
            append(&hands, files, ahead, inputs, disk, out)
        }
        Command::Feed {
            store: _,
            files,
            full,
            workers,
        } => {
            let hands = Hands {
                rt,
                alloc,
                workers,
                gate,
            };
            feed(&hands, files, full, inputs, disk, out)
        }
        Command::Follow { store: _, files } => follow(alloc, files, inputs, disk, out),
        Command::Export { store: _, table } => export(alloc, table, inputs, disk, out),
        Command::Tiles {
            store: _,
            least,
            clear,
        } => tiles(alloc, least, clear, inputs, disk, out),
        Command::Query { store: _, files } => query(alloc, files, inputs, disk, out),
        Command::Serve {
            store: _,
            files,
            workers,
            readers,
        } => {
            let hands = Hands {
                rt,
                alloc,
                workers,
                gate,
            };
            serve(&hands, files, readers, inputs, disk, out)
        }
        Command::Replay {
            store: _,
            files,
            workers,
        } => {
            let hands = Hands {
                rt,
                alloc,
                workers,
                gate,
            };
            replay(&hands, files, inputs, disk, out)
        }
        Command::Migrate { store: _ } => migrate(alloc, inputs, disk, out),
        Command::Check { store: _ } => check(alloc, inputs, disk, out),
        Command::Demo {
            squares,
            store: _,
            workers,
        } => {
            let hands = Hands {
                rt,
                alloc,
                workers,
                gate,
            };
            demo(&hands, squares, inputs, disk, out)
        }
    }
}
