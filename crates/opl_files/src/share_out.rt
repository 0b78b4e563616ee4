//! Bytes cut into pieces, of which each worker reads the lines of one.
ghost use Rattle.std.specs.Prelude.{◌≡◌, ◌≤◌, IfOk, length, flat_map};
ghost use Rattle.std.specs.List.{AllZip};
ghost use Rattle.osm_base.specs.declared.bounds.limits.LimitNumbers.{LimitNumbers};
ghost use Rattle.opl_files.specs.Parts.{AreShares, IsShareOf};

use crate::parts::Share;
use object_fold::WorkerCount;
use opl_lines::first_line;
use std::alloc::{AllocError, Global};

/// Where a piece ends that has so many bytes at least: behind a newline, or where the bytes end.
pub fn piece_end(bytes: &[u8], least: usize) -> usize
    ensures within { result ≤ length bytes.now }
{
    if least >= bytes.len() {
        return bytes.len();
    }
    match first_line(&bytes[least..]) {
        Some((line, _)) => least + line.len() + 1,
        None => bytes.len(),
    }
}

/// These bytes in pieces, no more than one for each worker, that have so many bytes at least, but for the last one; no piece of none.
pub fn pieces_of(
    alloc: Global,
    bytes: &[u8],
    workers: WorkerCount,
    least: usize,
) -> Result<Vec<&[u8]>, AllocError>
    ensures whole { IfOk result (λ pieces. flat_map (λ piece. piece.now) pieces.items ≡ bytes.now) }
    ensures few { IfOk result (λ pieces. length pieces.items ≤ workers.count) }
{
    let mut pieces = Vec::new(alloc);
    if bytes.is_empty() {
        return Ok(pieces);
    }
    let mut rest = bytes;
    for _ in 1..workers.count {
        let (piece, behind) = rest.split_at(piece_end(rest, least));
        if behind.is_empty() {
            break;
        }
        pieces.push(piece)?;
        rest = behind;
    }
    pieces.push(rest)?;
    Ok(pieces)
}

/// Leaves out the shares behind the first that does not end where its piece ends.
pub fn leave_out(pieces: &[&[u8]], shares: &mut Vec<Share>)
    ensures shares { (limits : LimitNumbers) → AllZip (λ piece share. IsShareOf limits piece.now share) pieces.now shares.old.items
        → AreShares limits (flat_map (λ piece. piece.now) pieces.now) shares.new.items }
{
    let mut whole = 0;
    while whole < pieces.len() && whole < shares.len() {
        if shares[whole].len < pieces[whole].len() {
            break;
        }
        whole += 1;
    }
    shares.truncate(whole + 1);
}
