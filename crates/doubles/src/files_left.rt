//! What is left of files in memory, of which one is read at a time.
ghost use Rattle.std.specs.Prelude.{◌≡◌, ◌<◌, ◌≤◌, [], min, length, take, drop, slice_index_or, slice_set, vec_len};

use osm_base::{Bytes, FileList};
use std::marker::Model;
use std::mem;

/// Files whose bytes are given out from the front. Only where another file is turned to, what is left
/// of the one before is moved to its front.
#[derive(Drop)]
pub struct FilesLeft {
    files: Vec<Bytes>,
    current: usize,
    served: usize,
}

impl Model for FilesLeft {
    ghost use Rattle.std.specs.Prelude.{List, ℕ, [], ◌≤◌, length, drop, slice_index_or, slice_set};

    ghost Value = { List (List ℕ) };

    ghost view = { λ left. slice_set left.files.items left.current
        (drop left.served (slice_index_or left.files.items left.current [])) };

    ghost invariant = { λ left. left.served ≤ length (slice_index_or left.files.items left.current []) };
}

impl FilesLeft {
    pub fn new(files: FileList) -> Self
        ensures whole { result ≡ files }
    {
        Self {
            files: files.into_vec(),
            current: 0,
            served: 0,
        }
    }

    /// How many files there are.
    pub fn len(&self) -> usize
        ensures { result ≡ length self.now }
    {
        self.files.len()
    }

    /// Moves the next bytes of a file to the front of the buffer, as many as are left or fit.
    pub fn read(&mut self, file: usize, buf: &mut [u8]) -> usize
        requires { file < length self.old }
        ensures count { result ≡ min (length buf.old) (length (slice_index_or self.old file [])) }
        ensures bytes { take result buf.new ≡ take result (slice_index_or self.old file []) }
        ensures left { self.new ≡ slice_set self.old file (drop result (slice_index_or self.old file [])) }
    {
        if file != self.current {
            if self.served > 0 {
                drop_front(&mut self.files, self.current, self.served);
            }
            self.current = file;
            self.served = 0;
        }
        let rest = &self.files[file].as_slice()[self.served..];
        let count = rest.len().min(buf.len());
        buf[..count].copy_from_slice(&rest[..count]);
        self.served += count;
        count
    }
}

// Takes bytes away from the front of a file.
fn drop_front(files: &mut Vec<Bytes>, file: usize, count: usize)
    requires file { file < vec_len files.old }
    requires count { count ≤ length (slice_index_or files.old.items file []) }
    ensures dropped { files.new.items ≡ slice_set files.old.items file
        (drop count (slice_index_or files.old.items file [])) }
{
    let none = Bytes::new(*files.allocator());
    let mut bytes = mem::replace(&mut files[file], none).into_vec();
    bytes.rotate_left(count);
    bytes.truncate(bytes.len() - count);
    files[file] = Bytes::from_vec(bytes);
}
