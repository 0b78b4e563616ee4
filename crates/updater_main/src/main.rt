//! The program: it hands the words of the command line, the real files, the real disk and standard output to
//! `run` of `updater`, tells the fault and ends with the status. On a terminal it tells meanwhile how far it is.
#![tactic(auto)]

ghost use Rattle.std.specs.Prelude.{◌≡◌, ◌↔◌, [], drop, map, Some, None, is_err, if◌then◌else◌};
ghost use Rattle.std.specs.String.{string_bytes};
ghost use Rattle.doubles.specs.MemDisk.{disk_bytes};
ghost use Rattle.run_promise.specs.Faults.{status_of};
ghost use Rattle.updater.specs.Command.{command};
ghost use Rattle.updater_main.specs.Asked.{asked, run_for, seen};

use doubles::{Fails, MemDisk};
use osm_base::Bytes;
use outside::{
    Bar, Disk, Failed, FileDisk, Gate, Inputs, Progress, Sink, StdSink, TellingFiles, TellingGate,
    TellingSink, put_all,
};
use page_journal::{GATE_AT, OPEN};
use run_promise::{Fault, Outcome, fault_line};
use std::alloc::Global;
use std::process::ExitCode;
use std::rt::{Env, Files};
use std::sync::Wait;
use std::thread::Threads;
use std::{env, fs, io};
use updater::{makes_store, only_looks, run, store_of};

const HELP: &str = "\
usage: yilgartzu points KEY INPUT [CHANGE..]
       yilgartzu lines KEY INPUT [CHANGE..]
       yilgartzu init STORE
       yilgartzu import [workers=N] [buckets=N] STORE STYLE INPUT
       yilgartzu append [ahead=N] [workers=N] STORE BOUNDS CHANGE..
       yilgartzu feed [workers=N] [full=yes] STORE BOUNDS [CHANGE..]
       yilgartzu follow STORE FEED..
       yilgartzu export STORE TABLE
       yilgartzu tiles [clear=yes] STORE MINZOOM
       yilgartzu query STORE QUERIES
       yilgartzu serve [workers=N] [readers=N] STORE BOUNDS QUERIES [CHANGE..]
       yilgartzu replay [workers=N] STORE STYLE BOUNDS INPUT [CHANGE..]
       yilgartzu migrate STORE
       yilgartzu check STORE
       yilgartzu demo [workers=N] N STORE

INPUT and the change files are OPL files, STYLE is a TOML file that defines
tables, and BOUNDS has the latitudes that bound the rows of tiles of a zoom.

  points       write a line for each node that has the tag KEY and a place: id,
               value, POINT(lon lat)
  lines        write a line for each way that has the tag KEY and two points or
               more: id, value, LINESTRING(lon lat,lon lat,..)
  init         make the file STORE an empty store, where there is no file or an
               empty one
  import       read INPUT into a store that was only made, under the tables of
               STYLE, and write `version 0`
  append       apply the change files in order, each whole or not at all, and
               write `version N` for each; with ahead=N the next N files are
               read meanwhile
  feed         append the change files, and write in place of each `version N` a
               block of what that change made of the tables; with full=yes a
               block of all tables comes first
  follow       take the blocks of the files FEED, which `feed` has written, into a
               store that was only made or that follows already, and write
               `version N` behind each; `export` tells its tables
  export       write the rows of a table
  tiles        write the tiles that changes have made due, from MINZOOM to zoom
               16, as zoom/column/row; with clear=yes none is due afterwards
  query        answer each line of QUERIES from the tables: `count TABLE`,
               `row TABLE n|w|r ID`, `box TABLE WEST SOUTH EAST NORTH`
  serve        append the change files, while readers ask QUERIES of each
               version; write then what each reader was answered in each round
  replay       init, import and append in one run, and then write each table
               behind a line `table NAME`, and behind `tiles` the tiles that are
               due at the zoom of BOUNDS
  migrate      write a store of the old format in this one, and write `format 2`
  check        read all of a store, and write `sound` where each of its pages,
               values, lists and rows is right; else a page that tells where not
  demo         make STORE, import a map of N squares, each with a cafe and a
               building, made of nothing, and apply two changes; write how much
               STORE holds then. N is 1 to 100000
  --help       this text
  --version    the version

workers is 1 to 64 (4 where it is not given), readers 1 to 64 (2), ahead 0 to 8
(0), buckets a power of two up to 65536 (1024). Options stand before all other
words, and a word -- ends them. Status 0: done; 2: wrong words; 3: a line is
wrong; 4: STYLE is; 5: BOUNDS is; 6: STORE is no store, is damaged, or is not in
the state for this; 7: a file could not be read; 8: the output failed; 9: the
disk of STORE failed; 10: a limit; 11: out of memory; 12: no such table, or a
line of QUERIES is wrong; 14: a block of FEED does not come next; 15: a line of
FEED is wrong.
";

/// The version, and the line of the kit that proves the program.
const VERSION: &str = "yilgartzu 0.4.12 (rattle-kit-13f logic dac8208d650f15bf)\n";

/// The variable that says whether the program tells how far it is: `1`, where standard error is a terminal.
const TELLS: &str = "YILGARTZU_PROGRESS";

/// The line of want of memory, for which there may be no memory either.
const OUT_OF_MEMORY: &str = "out of memory";

/// The variable that names a file for the line of a fault, from which the launcher explains it.
const LEFT_IN: &str = "YILGARTZU_FAULT";

fn main(rt: HostRuntime) -> ExitCode {
    let progress = Progress::new(&rt, rt.alloc(), tells(&rt));
    let Outcome { status, fault } = match args_of(&rt) {
        Ok(args) => {
            let words = words_behind(&args);
            let mut inputs = TellingFiles::new(&rt, words, &progress);
            let mut out = TellingSink::new(StdSink::new(io::writer(&rt)), &progress);
            let gate = TellingGate::new(&progress);
            match asked_of(words) {
                Asked::Help => told(put_all(&mut out, HELP.as_bytes())),
                Asked::Version => told(put_all(&mut out, VERSION.as_bytes())),
                Asked::Store { path, make, looks } => {
                    let mut disk = disk_of(&rt, path, make, looks);
                    outcome_of(
                        &rt,
                        rt.alloc(),
                        words,
                        &mut inputs,
                        &mut disk,
                        &mut out,
                        &gate,
                    )
                }
                Asked::Run => {
                    let mut disk = no_disk(rt.alloc());
                    outcome_of(
                        &rt,
                        rt.alloc(),
                        words,
                        &mut inputs,
                        &mut disk,
                        &mut out,
                        &gate,
                    )
                }
            }
        }
        Err(fault) => Outcome::of(Some(fault)),
    };
    progress.wipe();
    if let Some(fault) = &fault {
        tell(&rt, fault);
    }
    ExitCode::from(status)
}

/// The outcome of a run. Its contract ends here: what real files, a real disk and a real stream hold no clause says.
fn outcome_of<R: Threads + Wait + Sync, I: Inputs, D: Disk, S: Sink, G: Gate>(
    rt: &R,
    alloc: Global,
    words: &[String],
    inputs: &mut I,
    disk: &mut D,
    out: &mut S,
    gate: &G,
) -> Outcome
    ensures status { result.status ≡ status_of result.fault }
    ensures usage { (result.fault ≡ Some Fault.Usage) ↔ (command (map string_bytes words.now) ≡ None) }
{
    run(rt, alloc, words, inputs, disk, out, gate)
}

/// What the words ask for.
enum Asked<'a> {
    /// The text of the forms of words.
    Help,
    /// The version.
    Version,
    /// A run with the store at this path, which is made where there is no file, or has to be there; and whether it is only
    /// looked at.
    Store {
        path: &'a str,
        make: bool,
        looks: bool,
    },
    /// A run without a store.
    Run,
}

/// What the words ask for: a text where they begin with `--help` or `--version`.
fn asked_of(words: &[String]) -> Asked<'_>
    ensures asked { seen result ≡ asked (map string_bytes words.now) }
{
    match words {
        [word, ..] if word.as_str() == "--help" => Asked::Help,
        [word, ..] if word.as_str() == "--version" => Asked::Version,
        _ => run_for(words),
    }
}

/// A run of these words, with the store that they name.
fn run_for(words: &[String]) -> Asked<'_>
    ensures run { seen result ≡ run_for (command (map string_bytes words.now)) }
{
    match store_of(words) {
        Some(path) => Asked::Store {
            path,
            make: makes_store(words),
            looks: only_looks(words),
        },
        None => Asked::Run,
    }
}

/// The real disk of a run with the store at this path. One that is only looked at stays open to others that look, unless a
/// commit has to be finished first.
fn disk_of<R: Files>(rt: R, path: &str, make: bool, looks: bool) -> FileDisk<'_, R> {
    if looks {
        let bar = Bar {
            at: GATE_AT,
            value: OPEN,
        };
        FileDisk::looking(rt, path, bar)
    } else {
        FileDisk::new(rt, path, make)
    }
}

/// Whether the program tells how far it is.
fn tells(rt: &(impl Env + AllocGlobal)) -> bool {
    match env::var(rt, TELLS) {
        Ok(value) => value.as_str() == "1",
        Err(_) => false,
    }
}

/// The disk of a run without a store: an empty one in memory.
fn no_disk(alloc: Global) -> MemDisk
    ensures empty { disk_bytes result ≡ [] }
{
    MemDisk::new(alloc, Bytes::new(alloc), Fails::never(alloc))
}

/// All words of the command line. Words that are not text are a wrong use.
fn args_of(rt: &(impl Env + AllocGlobal)) -> Result<Vec<String>, Fault> {
    match env::args(rt) {
        Ok(args) => args.collect(rt.alloc()).map_err(|_| Fault::OutOfMemory),
        Err(error) if error.kind() == io::ErrorKind::OutOfMemory => Err(Fault::OutOfMemory),
        Err(_) => Err(Fault::Usage),
    }
}

/// The words behind the program's name, which is the first.
fn words_behind(args: &[String]) -> &[String]
    ensures words { result.now ≡ drop 1 args.now }
{
    match args {
        [_, words @ ..] => words,
        [] => args,
    }
}

/// The outcome of writing a text.
fn told(written: Result<(), Failed>) -> Outcome
    ensures fault { result.fault ≡ (if is_err written then Some Fault.WriteFault else None) }
{
    Outcome::of(written.err().map(|_| Fault::WriteFault))
}

/// Prints the line of a fault to standard error, and leaves it in the file that a variable names. The one that tells of want of
/// memory takes none; where there is none for another, nothing is printed.
fn tell(rt: &(impl Eprint + AllocGlobal + Env + Files), fault: &Fault) {
    match fault_line(rt.alloc(), fault) {
        Ok(line) => {
            let _ = rt.eprintln(line.as_str());
            if let Ok(path) = env::var(rt, LEFT_IN) {
                let _ = fs::write(rt, path.as_str(), line.as_str());
            }
        }
        Err(_) => {
            if let Fault::OutOfMemory = fault {
                let _ = rt.eprintln(OUT_OF_MEMORY);
            }
        }
    }
}
