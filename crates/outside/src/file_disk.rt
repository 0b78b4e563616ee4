//! A real file as a disk.
ghost use Rattle.std.specs.Prelude.{◌≡◌, ℕ, ◌+◌, ◌-◌, ◌^◌, ◌≤◌, None, List, length, IfOk, is_err, if◌then◌else◌};
ghost use Rattle.outside.specs.Counts.{one_more};
ghost use Rattle.outside.specs.Causes.{HasCause};
ghost use Rattle.outside.specs.FileDisk.{silent};

use crate::{Disk, Failed, MAX_LEN};
use std::fs::{self, File, OpenFile, OpenOptions};
use std::io::{self, ErrorKind};
use std::marker::Model;
use std::os::unix::fs::FileExt;
use std::path::Path;
use std::rt::Files;

/// The file at a path, which is opened and locked at the first call: for this disk alone, or beside others that only look.
/// Every error of the system is a fault, and so are a file that another process has locked, one of more than 2^62 bytes, and
/// a write to one that is only looked at. No bytes are told, since no proof says what a file holds.
#[derive(Drop)]
pub struct FileDisk<'p, R: Files> {
    file: NamedFile<'p, R>,
    faults: u64,
}

// A file that may not be open yet.
#[derive(Drop)]
struct NamedFile<'p, R: Files> {
    rt: R,
    path: &'p str,
    make: bool,
    // The byte that bars others, where the file is only looked at.
    bar: Option<Bar>,
    named: bool,
    open: Option<R::File>,
}

/// A byte of a file, and the value of it that means that the file has to be written before it is read.
#[derive(Clone, Copy)]
pub struct Bar {
    pub at: u64,
    pub value: u8,
}

// Contracts see the count of faults.
impl<'p, R: Files> Model for FileDisk<'p, R> {
    ghost use Rattle.std.specs.Prelude.{ℕ};

    ghost Value = { ℕ };

    ghost view = { λ disk. disk.faults };
}

impl<'p, R: Files> FileDisk<'p, R> {
    /// The file at this path. It is made where `make` says so and there is none, and else its absence is
    /// a fault.
    pub fn new(rt: R, path: &'p str, make: bool) -> Self
        ensures none { result ≡ 0 }
    {
        Self {
            file: NamedFile::new(rt, path, make, None),
            faults: 0,
        }
    }

    /// The file at this path, which has to be there and is only looked at, beside others that only look. Where the bar says
    /// that it has to be written first, it is this disk's alone.
    pub fn looking(rt: R, path: &'p str, bar: Bar) -> Self
        ensures none { result ≡ 0 }
    {
        Self {
            file: NamedFile::new(rt, path, false, Some(bar)),
            faults: 0,
        }
    }
}

impl<'p, R: Files> NamedFile<'p, R> {
    fn new(rt: R, path: &'p str, make: bool, bar: Option<Bar>) -> Self {
        Self {
            rt,
            path,
            make,
            bar,
            named: !make,
            open: None,
        }
    }
}

impl<R: Files<File = File> + Drop> NamedFile<'_, R> {
    // Opens and locks the file, if no earlier call has.
    fn begin(&mut self) -> io::Result<()> {
        if self.open.is_none() {
            let beside = match self.bar {
                Some(bar) => self.beside(bar)?,
                None => None,
            };
            let file = match beside {
                Some(file) => file,
                None => self.alone()?,
            };
            self.open = Some(file);
        }
        Ok(())
    }

    // The file for this disk alone: an opening of a store may finish a commit, and two processes that write would destroy it.
    fn alone(&self) -> io::Result<File> {
        let mut options = OpenOptions::new();
        options.read(true);
        options.write(true);
        options.create(self.make);
        let file = options.open(&self.rt, self.path)?;
        file.try_lock()?;
        Ok(file)
    }

    // The file beside others that only look, unless it has to be written first.
    fn beside(&self, bar: Bar) -> io::Result<Option<File>> {
        let file = fs::open(&self.rt, self.path)?;
        file.try_lock_shared()?;
        let mut byte = [0];
        if file.read_at(&mut byte, bar.at)? == 1 && byte == [bar.value] {
            return Ok(None);
        }
        Ok(Some(file))
    }

    // Makes the name of a file stable that this disk may have made. It stays so, so that once is enough.
    fn keep_name(&mut self) -> io::Result<()> {
        if self.named {
            return Ok(());
        }
        let folder = match Path::new(self.path).parent() {
            Some(folder) if !folder.as_str().is_empty() => folder.as_str(),
            _ => ".",
        };
        fs::open(&self.rt, folder)?.sync_all()?;
        self.named = true;
        Ok(())
    }

    fn try_len(&mut self) -> io::Result<u64>
        ensures small { IfOk result (λ len. len ≤ 2 ^ 62) }
    {
        self.begin()?;
        let open = self.open.as_ref().ok_or(closed())?;
        let len = open.metadata()?.len();
        if len > MAX_LEN as u64 {
            return Err(ErrorKind::FileTooLarge.into());
        }
        Ok(len)
    }

    fn try_read(&mut self, at: u64, buf: &mut [u8]) -> io::Result<usize>
        requires { at + length buf.old ≤ 2 ^ 62 }
        ensures bound { IfOk result (λ count. count ≤ length buf.old) }
    {
        self.begin()?;
        let open = self.open.as_ref().ok_or(closed())?;
        fill(open, at, buf)
    }

    fn try_write(&mut self, at: u64, piece: &[u8]) -> io::Result<()>
        requires { at + length piece.now ≤ 2 ^ 62 }
    {
        self.begin()?;
        let open = self.open.as_ref().ok_or(closed())?;
        open.write_all_at(piece, at)
    }

    fn try_sync(&mut self) -> io::Result<()> {
        self.begin()?;
        let open = self.open.as_ref().ok_or(closed())?;
        // The bytes and the length: when the file was last written may be lost.
        open.sync_data()?;
        self.keep_name()
    }
}

fn closed() -> io::Error {
    ErrorKind::NotFound.into()
}

// Reads from this place on until the buffer is full or the file ends.
fn fill(open: &File, at: u64, buf: &mut [u8]) -> io::Result<usize>
    requires { at + length buf.old ≤ 2 ^ 62 }
    ensures bound { IfOk result (λ count. count ≤ length buf.old) }
{
    let mut filled = 0;
    while filled < buf.len() {
        let count = open.read_at(&mut buf[filled..], at + filled as u64)?;
        if count == 0 {
            break;
        }
        filled += count;
    }
    Ok(filled)
}

// The answer of a call: each error of the system is a fault.
fn told<T: Drop>(outcome: io::Result<T>, faults: &mut u64) -> Result<T, Failed>
    ensures same { IfOk result (λ value. outcome ≡ Ok value) }
    ensures counted { faults.new ≡ (if is_err result then one_more faults.old else faults.old) }
    ensures cause { HasCause faults.old faults.new result }
{
    match outcome {
        Ok(value) => Ok(value),
        Err(_) => {
            *faults = faults.saturating_add(1);
            Err(Failed)
        }
    }
}

impl<R: Files<File = File> + Drop> Disk for FileDisk<'_, R> {
    ghost view = { silent };

    ghost reads_stay = { λ disk content told. Prim.cc };

    ghost counts_now = { λ disk since left le now. now };

    ghost only_now = { λ disk left since. since };

    fn len(&mut self) -> Result<u64, Failed> {
        let outcome = self.file.try_len();
        told(outcome, &mut self.faults)
    }

    fn read_at(&mut self, at: u64, buf: &mut [u8]) -> Result<usize, Failed> {
        let outcome = self.file.try_read(at, buf);
        told(outcome, &mut self.faults)
    }

    fn write_at(&mut self, at: u64, piece: &[u8]) -> Result<(), Failed> {
        let outcome = self.file.try_write(at, piece);
        told(outcome, &mut self.faults)
    }

    fn sync(&mut self) -> Result<(), Failed> {
        let outcome = self.file.try_sync();
        told(outcome, &mut self.faults)
    }
}
