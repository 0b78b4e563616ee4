//! The words of the command line.
ghost use Rattle.std.specs.Prelude.{◌≡◌, ◌≤◌, map, length, IfSome};
ghost use Rattle.std.specs.List.{prefix_len};
ghost use Rattle.std.specs.Option.{option_map};
ghost use Rattle.std.specs.String.{string_bytes};
ghost use Rattle.run_promise.specs.CommandOf as promise;
ghost use Rattle.updater.specs.Command as spec;

use crate::commands::{
    append, check, demo, export, feed, follow, import, init, lines, migrate, points, query, replay,
    serve, tiles,
};
use crate::forms::Words;
use demo_map::Squares;
use geom_workers::Workers;
use run_promise::Files;

/// The most words that a command line may have, the command word counted.
pub const MAX_WORDS: usize = 4_096;

/// What the words of a command line ask for. A file is told by the place of its word.
#[derive(Clone, Copy)]
pub enum Command<'a> {
    /// The nodes of the files that have the tag KEY and a place.
    Points {
        key: &'a str,
        files: Files,
    },
    /// The ways of the files that have the tag KEY and a line.
    Lines {
        key: &'a str,
        files: Files,
    },
    /// An empty store on an empty disk.
    Init {
        store: &'a str,
    },
    /// The first import into a store: STYLE and INPUT.
    Import {
        store: &'a str,
        files: Files,
        buckets: u64,
        workers: Workers,
    },
    /// Changes of a store, one after another: BOUNDS and the change files, of which so many are read ahead.
    Append {
        store: &'a str,
        files: Files,
        ahead: u32,
        workers: Workers,
    },
    /// Changes of a store, one after another, and what each makes of the tables: BOUNDS and the change files, and whether
    /// all tables are told first.
    Feed {
        store: &'a str,
        files: Files,
        full: bool,
        workers: Workers,
    },
    /// The files of a feed, one after another, block by block, which a store follows.
    Follow {
        store: &'a str,
        files: Files,
    },
    /// The rows of a table of a store.
    Export {
        store: &'a str,
        table: &'a str,
    },
    /// The tiles of a store that are due, from a least zoom on, and whether none is due afterwards.
    Tiles {
        store: &'a str,
        least: u32,
        clear: bool,
    },
    /// Answers from the tables of a store: QUERIES.
    Query {
        store: &'a str,
        files: Files,
    },
    /// Change files, one after another, while readers are answered: BOUNDS, QUERIES and the change files.
    Serve {
        store: &'a str,
        files: Files,
        workers: Workers,
        readers: u32,
    },
    /// A store made, imported and changed, and all that it holds: STYLE, BOUNDS, INPUT and the change files.
    Replay {
        store: &'a str,
        files: Files,
        workers: Workers,
    },
    /// A store of the old format, written anew.
    Migrate {
        store: &'a str,
    },
    /// All of a store, looked at: whether it is sound.
    Check {
        store: &'a str,
    },
    /// A store made and filled with a map of so many squares out of nothing, and how much it holds.
    Demo {
        squares: Squares,
        store: &'a str,
        workers: Workers,
    },
}

/// The path of the store that the words of a command name.
pub fn store_of(words: &[String]) -> Option<&str>
    ensures store { option_map (λ store. store.now) result ≡ promise.store_of (spec.command (map string_bytes words.now)) }
{
    match command_of(words) {
        Some(
            Command::Init { store }
            | Command::Import { store, .. }
            | Command::Append { store, .. }
            | Command::Feed { store, .. }
            | Command::Follow { store, .. }
            | Command::Export { store, .. }
            | Command::Tiles { store, .. }
            | Command::Query { store, .. }
            | Command::Serve { store, .. }
            | Command::Replay { store, .. }
            | Command::Migrate { store }
            | Command::Check { store }
            | Command::Demo { store, .. },
        ) => Some(store),
        Some(Command::Points { .. } | Command::Lines { .. }) | None => None,
    }
}

/// Whether the words name a store that is to be made where there is none.
pub fn makes_store(words: &[String]) -> bool
    ensures makes { result ≡ promise.makes_store (spec.command (map string_bytes words.now)) }
{
    matches!(
        command_of(words),
        Some(Command::Init { .. } | Command::Replay { .. } | Command::Demo { .. })
    )
}

/// Whether the words name a store that is only looked at: the command writes nothing to one that is at rest.
pub fn only_looks(words: &[String]) -> bool
    ensures looks { result ≡ promise.only_looks (spec.command (map string_bytes words.now)) }
{
    matches!(
        command_of(words),
        Some(
            Command::Export { .. }
                | Command::Query { .. }
                | Command::Tiles { clear: false, .. }
                | Command::Check { .. }
        )
    )
}

/// The command that the words behind the program's name ask for.
/// `None`: they are no command of this program.
///
/// The first word names the command. Words behind it that begin with letters a to z and `=` are
/// its options, up to the first word that does not. One `--` in that place is dropped, so that a
/// KEY may look like an option. The words that remain fill the command's form.
#[tactic(auto, unfolding(crate::specs::Command::command))]
pub fn command_of(words: &[String]) -> Option<Command<'_>>
    ensures command { option_map spec.command_view result ≡ spec.command (map string_bytes words.now) }
    ensures fits { IfSome result (λ command. promise.FilesFit (spec.command_view command)) }
{
    let (name, later) = words.split_first()?;
    if words.len() > MAX_WORDS {
        return None;
    }
    let (options, rest) = later.split_at(count_options(later));
    let form = without_dashes(rest);
    let place = (words.len() - form.len()) as u32;
    let words = Words {
        options,
        form,
        place,
    };
    named(name, words)
}

/// The command of this name with these words.
fn named<'a>(name: &str, words: Words<'a>) -> Option<Command<'a>>
    ensures read { spec.IsReadAs (spec.named name.now) words.entry result }
{
    match name {
        "points" => points::form(words),
        "lines" => lines::form(words),
        "init" => init::form(words),
        "import" => import::form(words),
        "append" => append::form(words),
        "feed" => feed::form(words),
        "follow" => follow::form(words),
        "export" => export::form(words),
        "tiles" => tiles::form(words),
        "query" => query::form(words),
        "serve" => serve::form(words),
        "replay" => replay::form(words),
        "migrate" => migrate::form(words),
        "check" => check::form(words),
        "demo" => demo::form(words),
        _ => None,
    }
}

/// How many options the words begin with.
fn count_options(words: &[String]) -> usize
    ensures count { result ≡ prefix_len (λ word. spec.is_option (string_bytes word)) words.now }
    ensures within { result ≤ length words.now }
{
    words.iter().take_while(|word| is_option(word)).count()
}

/// Whether a word begins with one or more letters a to z and then `=`.
fn is_option(word: &str) -> bool
    ensures option { result ≡ spec.is_option word.now }
{
    let bytes = word.as_bytes();
    let letters = count_letters(bytes);
    0 < letters && bytes[letters..].starts_with(b"=")
}

/// How many letters a to z the bytes begin with.
fn count_letters(bytes: &[u8]) -> usize
    ensures count { result ≡ prefix_len spec.is_letter bytes.now }
    ensures within { result ≤ length bytes.now }
{
    bytes
        .iter()
        .take_while(|byte| byte.is_ascii_lowercase())
        .count()
}

/// The words without `--` at their front.
fn without_dashes(words: &[String]) -> &[String]
    ensures words { map string_bytes result.now ≡ spec.without_dashes (map string_bytes words.now) }
    ensures fewer { length result.now ≤ length words.now }
{
    match words {
        [dashes, form @ ..] if dashes.as_str() == "--" => form,
        _ => words,
    }
}
