//! Members of a relation in bytes, and keys.
ghost use Rattle.std.specs.Prelude.{◌≡◌, ℕ, OnOk, IfSome, IsNone, ◌≢◌};
ghost use Rattle.osm_base.specs.values.Key.{KeyOf};
ghost use Rattle.value_bytes.specs.Forms.{IsFront, IsFrontless};
ghost use Rattle.value_bytes.specs.Members.{kind_byte, key_bytes, IsKey, member_bytes, IsMember};

use crate::numbers::{front_byte, front_number, push_number};
use crate::texts::{front_text, push_text};
use crate::{Spelled, ValueFault};
use osm_base::{Key, Kind, MAX_ID, Member, OutOfMemory, Text};
use std::alloc::Global;

impl Spelled for Key {
    ghost spell = { key_bytes };

    ghost is = { IsKey };

    fn front<'b>(_alloc: Global, bytes: &'b [u8]) -> Result<(Self, &'b [u8]), ValueFault> {
        match front_key(bytes) {
            Some((key, rest)) => Ok((key, rest)),
            None => Err(ValueFault::NotSpelled),
        }
    }

    fn push_to(&self, out: &mut Vec<u8>) -> Result<(), OutOfMemory> {
        out.push(byte_of(self.kind))?;
        push_number(out, self.id)?;
        Ok(())
    }
}

impl Spelled for Member {
    ghost spell = { member_bytes };

    ghost is = { IsMember };

    fn front<'b>(alloc: Global, bytes: &'b [u8]) -> Result<(Self, &'b [u8]), ValueFault> {
        let (key, behind) = match front_key(bytes) {
            Some(found) => found,
            None => return Err(ValueFault::NotSpelled),
        };
        let Some((role, rest)) = front_text(behind) else {
            return Err(ValueFault::NotSpelled);
        };
        let role = Text::from_str(alloc, role)?;
        Ok((Member { key, role }, rest))
    }

    fn push_to(&self, out: &mut Vec<u8>) -> Result<(), OutOfMemory> {
        self.key.push_to(out)?;
        push_text(out, self.role.as_str())?;
        Ok(())
    }
}

/// The key at the front, and the bytes behind it. `None`: none stands there.
fn front_key(bytes: &[u8]) -> Option<(Key, &[u8])>
    ensures key { IfSome result (λ (key, rest). IsFront key_bytes IsKey bytes.now key rest.now) }
    ensures none { IsNone result → IsFrontless key_bytes IsKey bytes.now }
{
    let Some((byte, behind)) = front_byte(bytes) else {
        return None;
    };
    let Some((id, rest)) = front_number(behind) else {
        return None;
    };
    match key_of(byte, id) {
        Some(key) => Some((key, rest)),
        None => None,
    }
}

/// The key of the kind with this byte and of this id. `None`: there is no such key.
fn key_of(byte: u8, id: u64) -> Option<Key>
    ensures kind { IfSome result (λ key. kind_byte key.kind ≡ byte) }
    ensures id { IfSome result (λ key. key.id ≡ id) }
    ensures is { IfSome result IsKey }
    ensures none { IsNone result → (key : KeyOf) → IsKey key → kind_byte key.kind ≡ byte → key.id ≢ id }
{
    let Some(kind) = kind_of(byte) else {
        return None;
    };
    if id == 0 || id > MAX_ID {
        return None;
    }
    Some(Key::new(kind, id))
}

/// The kind with this byte. `None`: there is none.
fn kind_of(byte: u8) -> Option<Kind>
    ensures kind { IfSome result (λ kind. kind_byte kind ≡ byte) }
    ensures none { IsNone result → (key : KeyOf) → kind_byte key.kind ≢ byte }
{
    match byte {
        0 => Some(Kind::Node),
        1 => Some(Kind::Way),
        2 => Some(Kind::Relation),
        _ => None,
    }
}

/// The byte of a kind.
fn byte_of(kind: Kind) -> u8
    ensures byte { result ≡ kind_byte kind }
{
    match kind {
        Kind::Node => 0,
        Kind::Way => 1,
        Kind::Relation => 2,
    }
}
