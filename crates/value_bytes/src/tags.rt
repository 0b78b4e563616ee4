//! Tags in bytes, by rising keys.
ghost use Rattle.std.specs.Prelude.{◌≡◌, [], ◌++◌, IfOk, IfErr, OnOk};
ghost use Rattle.std.specs.List.{AllByRecursion};
ghost use Rattle.std.specs.Str.{chars};
ghost use Rattle.std.specs.FinMap as map;
ghost use Rattle.value_bytes.specs.Forms.{IsFront, IsFrontless, NeedsFor, all_bytes, AreMany};
ghost use Rattle.value_bytes.specs.Tags.{tag_bytes, IsTag, tags_bytes, AreTags};

use crate::numbers::{at_most, front_number, push_number};
use crate::texts::{front_text, push_text};
use crate::{Spelled, ValueFault};
use osm_base::{OutOfMemory, TagList, Tags};
use std::alloc::Global;

impl Spelled for Tags {
    ghost spell = { tags_bytes };

    ghost is = { AreTags };

    fn front<'b>(alloc: Global, bytes: &'b [u8]) -> Result<(Self, &'b [u8]), ValueFault> {
        let Some((count, behind)) = front_number(bytes) else {
            return Err(ValueFault::NotSpelled);
        };
        let (list, rest) = match front_list(alloc, count, behind) {
            Ok(found) => found,
            Err(fault) => return Err(fault),
        };
        match list.into_rising() {
            Some(tags) => Ok((tags, rest)),
            None => Err(ValueFault::NotSpelled),
        }
    }

    fn push_to(&self, out: &mut Vec<u8>) -> Result<(), OutOfMemory> {
        push_number(out, self.len() as u64)?;
        push_each(out, self)?;
        Ok(())
    }
}

/// The tags at the front, so many of them in whatever order, and the bytes behind them.
fn front_list(alloc: Global, count: u64, bytes: &[u8]) -> Result<(TagList, &[u8]), ValueFault>
    ensures tags { IfOk result (λ (tags, rest). IsFront (all_bytes tag_bytes) (AreMany count IsTag) bytes.now tags rest.now) }
    ensures refused { IfErr result (NeedsFor (IsFrontless (all_bytes tag_bytes) (AreMany count IsTag) bytes.now)) }
{
    let mut list = with_room(alloc, count, bytes)?;
    let mut rest = bytes;
    for _ in 0..count {
        let Some((key, behind)) = front_text(rest) else {
            return Err(ValueFault::NotSpelled);
        };
        let Some((value, behind)) = front_text(behind) else {
            return Err(ValueFault::NotSpelled);
        };
        list.push(key, value)?;
        rest = behind;
    }
    Ok((list, rest))
}

/// No tag, with room for so many that stand in these bytes, sixteen bytes of each its two lengths.
fn with_room(alloc: Global, count: u64, bytes: &[u8]) -> Result<TagList, OutOfMemory>
    ensures empty { IfOk result (λ tags. tags ≡ []) }
{
    let tags = at_most(count, bytes.len() / 16);
    let of_lengths = 16 * tags;
    let of_texts = bytes.len() - of_lengths;
    TagList::with_room(alloc, tags, of_texts)
}

/// Puts each tag behind the bytes that are there.
fn push_each(out: &mut Vec<u8>, tags: &Tags) -> Result<(), OutOfMemory>
    ensures ok { OnOk result (out.new.items ≡ out.old.items ++ all_bytes tag_bytes (map.entries tags.now)) }
    ensures is { OnOk result (AllByRecursion IsTag (map.entries tags.now)) }
{
    for index in 0..tags.len() {
        let (key, value) = tags.nth(index);
        push_tag(out, key, value)?;
    }
    Ok(())
}

/// Puts a tag behind the bytes that are there.
fn push_tag(out: &mut Vec<u8>, key: &str, value: &str) -> Result<(), OutOfMemory>
    ensures ok { OnOk result (out.new.items ≡ out.old.items ++ tag_bytes (chars key.now, chars value.now)) }
    ensures is { OnOk result (IsTag (chars key.now, chars value.now)) }
{
    push_text(out, key)?;
    push_text(out, value)?;
    Ok(())
}
