//! Bytes that are written over others in place.
ghost use Rattle.std.specs.Prelude.{◌≡◌, ◌+◌, ◌≤◌, max, length, OnOk, OnErr};
ghost use Rattle.outside.specs.Disk.{padded, overlaid};

use outside::MAX_LEN;
use std::alloc::AllocError;

/// Makes the bytes longer by zeros, where they are shorter than this.
#[tactic(auto, unfolding(outside::specs::Disk::padded))]
pub fn grow(bytes: &mut Vec<u8>, end: usize) -> Result<(), AllocError>
    ensures ok { OnOk result (bytes.new.items ≡ padded (max (length bytes.old.items) end) bytes.old.items) }
    ensures err { OnErr result (bytes.new.items ≡ bytes.old.items) }
{
    let len = bytes.len().max(end);
    bytes.resize(len, 0)?;
    Ok(())
}

/// Writes over bytes that are there.
pub fn put_over(bytes: &mut Vec<u8>, at: usize, piece: &[u8])
    requires { at + length piece.now ≤ length bytes.old.items }
    ensures { bytes.new.items ≡ overlaid at piece.now bytes.old.items }
{
    put_into(bytes, at, piece);
}

fn put_into(bytes: &mut [u8], at: usize, piece: &[u8])
    requires { at + length piece.now ≤ length bytes.old }
    ensures { bytes.new ≡ overlaid at piece.now bytes.old }
{
    bytes[at..at + piece.len()].copy_from_slice(piece);
}

/// Writes over what is there, and past the end.
pub fn overwrite(bytes: &mut Vec<u8>, at: usize, piece: &[u8]) -> Result<(), AllocError>
    ensures ok { OnOk result (bytes.new.items ≡ overlaid at piece.now bytes.old.items) }
    ensures err { OnErr result (bytes.new.items ≡ bytes.old.items) }
{
    // No memory holds more than that.
    if at > MAX_LEN || piece.len() > MAX_LEN - at {
        return Err(AllocError);
    }
    grow(bytes, at + piece.len())?;
    put_over(bytes, at, piece);
    Ok(())
}
