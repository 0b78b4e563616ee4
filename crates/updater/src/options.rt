//! The options of a command.
ghost use Rattle.std.specs.Prelude.{◌≡◌, IfSome, map};
ghost use Rattle.std.specs.String.{string_bytes};
ghost use Rattle.run_promise.specs.declared.ranges.TheConstants.{MAX_WORKERS};
ghost use Rattle.updater.specs.Number.{in_range, number};
ghost use Rattle.updater.specs.Options as spec;

use crate::number::number_in;
use geom_workers::Workers;
use run_promise::{MAX_AHEAD, MAX_BUCKETS, MAX_READERS};

/// The workers of a command whose options say nothing of them.
pub const WORKERS: u32 = 4;

/// And the readers.
pub const READERS: u32 = 2;

/// And the buckets.
pub const BUCKETS: u32 = 1_024;

/// What the options of a command say.
#[derive(Clone, Copy)]
pub struct Options {
    pub workers: Option<Workers>,
    pub readers: Option<u32>,
    pub buckets: Option<u32>,
    pub clear: bool,
    pub ahead: Option<u32>,
    pub full: bool,
}

/// Which options belong to a command.
#[derive(Clone, Copy)]
pub struct Allowed {
    pub workers: bool,
    pub readers: bool,
    pub buckets: bool,
    pub clear: bool,
    pub ahead: bool,
    pub full: bool,
}

/// What these words say. `None`: one of them does not belong to the command, stood before, or has no value in range.
pub fn options_of(allowed: Allowed, words: &[String]) -> Option<Options>
    ensures read { result ≡ spec.options_read allowed (map string_bytes words.now) }
    ensures range { IfSome result spec.AreInRange }
{
    let mut options = Options {
        workers: None,
        readers: None,
        buckets: None,
        clear: false,
        ahead: None,
        full: false,
    };
    for word in words {
        match with_option(allowed, options, word) {
            Some(more) => options = more,
            None => return None,
        }
    }
    Some(options)
}

/// The options with a word more.
#[tactic(auto, unfolding(crate::specs::Options::with_option))]
fn with_option(allowed: Allowed, options: Options, word: &str) -> Option<Options>
    ensures option { result ≡ spec.with_option allowed options word.now }
    ensures range { spec.AreInRange options → IfSome result spec.AreInRange }
{
    if word == "clear=yes" {
        return with_clear(allowed, options);
    }
    if word == "full=yes" {
        return with_full(allowed, options);
    }
    let bytes = word.as_bytes();
    if let Some(value) = bytes.strip_prefix(b"workers=") {
        return with_workers(allowed, options, value);
    }
    if let Some(value) = bytes.strip_prefix(b"buckets=") {
        return with_buckets(allowed, options, value);
    }
    if let Some(value) = bytes.strip_prefix(b"readers=") {
        return with_readers(allowed, options, value);
    }
    match bytes.strip_prefix(b"ahead=") {
        Some(value) => with_ahead(allowed, options, value),
        None => None,
    }
}

/// The options with `clear=yes`.
fn with_clear(allowed: Allowed, options: Options) -> Option<Options>
    ensures option { result ≡ spec.with_clear allowed options }
    ensures range { spec.AreInRange options → IfSome result spec.AreInRange }
{
    if !allowed.clear || options.clear {
        return None;
    }
    Some(Options {
        clear: true,
        ..options
    })
}

/// The options with `full=yes`.
fn with_full(allowed: Allowed, options: Options) -> Option<Options>
    ensures option { result ≡ spec.with_full allowed options }
    ensures range { spec.AreInRange options → IfSome result spec.AreInRange }
{
    if !allowed.full || options.full {
        return None;
    }
    Some(Options {
        full: true,
        ..options
    })
}

/// The number of workers that a word writes.
fn workers_in(value: &[u8]) -> Option<Workers>
    ensures workers { result ≡ in_range 1 MAX_WORKERS (number value.now) }
{
    Workers::new(number_in(value)?)
}

/// As many workers as a command has whose options say nothing of them.
pub fn usual_workers() -> Workers
    ensures workers { result ≡ WORKERS }
{
    Workers::new(WORKERS).unwrap()
}

/// The options with this number of workers.
fn with_workers(allowed: Allowed, options: Options, value: &[u8]) -> Option<Options>
    ensures option { result ≡ spec.with_workers allowed options value.now }
    ensures range { spec.AreInRange options → IfSome result spec.AreInRange }
{
    let workers = workers_in(value)?;
    if !allowed.workers || options.workers.is_some() {
        return None;
    }
    Some(Options {
        workers: Some(workers),
        ..options
    })
}

/// The options with this number of readers.
fn with_readers(allowed: Allowed, options: Options, value: &[u8]) -> Option<Options>
    ensures option { result ≡ spec.with_readers allowed options value.now }
    ensures range { spec.AreInRange options → IfSome result spec.AreInRange }
{
    let readers = number_in(value)?;
    if !allowed.readers || options.readers.is_some() || readers < 1 || readers > MAX_READERS {
        return None;
    }
    Some(Options {
        readers: Some(readers),
        ..options
    })
}

/// The options with this number of buckets.
fn with_buckets(allowed: Allowed, options: Options, value: &[u8]) -> Option<Options>
    ensures option { result ≡ spec.with_buckets allowed options value.now }
    ensures range { spec.AreInRange options → IfSome result spec.AreInRange }
{
    let buckets = number_in(value)?;
    if !allowed.buckets
        || options.buckets.is_some()
        || !buckets.is_power_of_two()
        || buckets > MAX_BUCKETS
    {
        return None;
    }
    Some(Options {
        buckets: Some(buckets),
        ..options
    })
}

/// The options with this number of files to be read ahead.
fn with_ahead(allowed: Allowed, options: Options, value: &[u8]) -> Option<Options>
    ensures option { result ≡ spec.with_ahead allowed options value.now }
    ensures range { spec.AreInRange options → IfSome result spec.AreInRange }
{
    let ahead = number_in(value)?;
    if !allowed.ahead || options.ahead.is_some() || ahead > MAX_AHEAD {
        return None;
    }
    Some(Options {
        ahead: Some(ahead),
        ..options
    })
}
