//! What is wanted of a run.
ghost use Rattle.std.specs.Prelude.{◌≡◌, false};
ghost use Rattle.std.specs.Bool.{OnTrue};

use crate::rows::{push_bytes, set_number, set_text};
use example_table::{bytes_of, named_row, number_in};
use std::alloc::{AllocError, Global};

/// How a run is to end. The texts are empty where there is no fault and no store. What the disk holds then counts, or not. Where it is `begun`,
/// what is printed need be no more than a beginning.
#[derive(Drop)]
pub struct Wanted {
    pub status: u64,
    pub fault: String,
    pub store: String,
    pub printed: Vec<u8>,
    pub begun: bool,
    pub any_disk: bool,
    pub disk_bytes: u64,
    pub pieces: Vec<Piece>,
}

/// Bytes that the disk is to hold at a place.
#[derive(Drop)]
pub struct Piece {
    pub at: usize,
    pub bytes: Vec<u8>,
}

impl Wanted {
    /// A run that has done all, printed nothing and left an empty disk.
    pub fn new(alloc: Global) -> Self {
        Self {
            status: 0,
            fault: String::new(alloc),
            store: String::new(alloc),
            printed: Vec::new(alloc),
            begun: false,
            any_disk: false,
            disk_bytes: 0,
            pieces: Vec::new(alloc),
        }
    }

    /// A run over the store of the one before that has done all and printed nothing.
    pub fn behind(alloc: Global, last: &Wanted) -> Result<Self, AllocError> {
        let mut wanted = Self::new(alloc);
        wanted.store = String::from_str(alloc, last.store.as_str())?;
        wanted.any_disk = last.any_disk;
        Ok(wanted)
    }

    /// A check that finds the store at this path sound.
    pub fn sound(alloc: Global, store: &str) -> Result<Self, AllocError> {
        let mut wanted = Self::new(alloc);
        wanted.store = String::from_str(alloc, store)?;
        wanted.printed = Vec::from_slice(alloc, b"sound\n")?;
        wanted.any_disk = true;
        Ok(wanted)
    }

    /// The same, whatever the disk holds then.
    pub fn copied(&self, alloc: Global) -> Result<Self, AllocError> {
        let mut wanted = Self::new(alloc);
        wanted.status = self.status;
        wanted.fault = String::from_str(alloc, self.fault.as_str())?;
        wanted.store = String::from_str(alloc, self.store.as_str())?;
        wanted.printed = Vec::from_slice(alloc, &self.printed)?;
        wanted.any_disk = true;
        Ok(wanted)
    }

    /// The run is to be refused so, in the midst of what it prints.
    pub fn refuse(&mut self, alloc: Global, status: u64, fault: &str) -> Result<(), AllocError> {
        self.fault = String::from_str(alloc, fault)?;
        self.status = status;
        self.begun = true;
        Ok(())
    }

    /// Whether this is the line of the fault. One that ends in a blank says only how it begins.
    pub fn is_fault(&self, line: &str) -> bool {
        let fault = self.fault.as_str();
        line == fault || (fault.ends_with(' ') && line.starts_with(fault))
    }

    /// Whether this is what is to be printed.
    pub fn is_printed(&self, bytes: &[u8]) -> bool
        ensures same { OnTrue result (self.now.begun ≡ false → bytes.now ≡ self.now.printed.items) }
    {
        bytes == self.printed.as_slice() || (self.begun && self.printed.starts_with(bytes))
    }

    /// Takes up what a row says. False: it is no row of what is wanted.
    pub fn set(&mut self, alloc: Global, word: &str, text: &str) -> Result<bool, AllocError> {
        match word {
            "status" => Ok(set_number(&mut self.status, text)),
            "fault" => set_text(alloc, &mut self.fault, text),
            "store" => set_text(alloc, &mut self.store, text),
            ">" => push_bytes(alloc, &mut self.printed, "|", text),
            ">each" => push_bytes(alloc, &mut self.printed, "each", text),
            "any-disk" => {
                self.any_disk = true;
                Ok(text.is_empty())
            }
            "disk-bytes" => Ok(set_number(&mut self.disk_bytes, text)),
            "disk-at" => self.push_piece(alloc, text),
            _ => Ok(false),
        }
    }

    /// The number of a place and the bytes that the disk is to hold there.
    fn push_piece(&mut self, alloc: Global, text: &str) -> Result<bool, AllocError> {
        let Some((at, field)) = named_row(text) else {
            return Ok(false);
        };
        match (number_in(at), bytes_of(alloc, field)?) {
            (Some(at), Some(bytes)) => {
                self.pieces.push(Piece {
                    at: at as usize,
                    bytes,
                })?;
                Ok(true)
            }
            _ => Ok(false),
        }
    }
}
