//! Tags in the order of their coming, as a line gives them.
ghost use Rattle.std.specs.Prelude.{◌≡◌, ℕ, List, [], ◌∷◌, ◌++◌, ◌↔◌, T, OnOk, OnErr, IfOk, IsTrue, IsSome, IfSome};
ghost use Rattle.std.specs.Ordering.{nat_cmp};
ghost use Rattle.std.specs.Cmp.Lexicographic.{slice_cmp};
ghost use Rattle.std.specs.List.Sorted.{IsPermutation, IsSortedByKey};
ghost use Rattle.std.specs.Str.{chars};
ghost use Rattle.std.specs.FinMap as map;
ghost use Rattle.osm_base.specs.values.Tags.{HasEachKeyOnce};
ghost use Rattle.osm_base.specs.values.TagText.{key_bytes, AreSpans};
ghost use Rattle.osm_base.specs.values.TagOrder.{pairs_of};

use super::{Span, TagRow, Tags, key_at};
use crate::OutOfMemory;
use std::alloc::Global;
use std::marker::Model;

/// Tags in the order of their coming. A key may stand several times.
#[derive(Drop)]
pub struct TagList {
    alloc: Global,
    row: Option<Box<TagRow>>,
}

impl Model for TagList {
    ghost use Rattle.osm_base.specs.values.Tags.{TagPairs};

    ghost Value = { TagPairs };

    ghost use Rattle.osm_base.specs.values.TagText.{AreSpans};
    ghost use Rattle.osm_base.specs.values.TagRow.{text_in, spans_in, pairs_in};

    ghost view = { λ tags. pairs_in tags.row };

    ghost invariant = { λ tags. AreSpans (text_in tags.row) (spans_in tags.row) };
}

impl TagList {
    /// No tag, with room for that many tags of that many bytes in all.
    pub fn with_room(alloc: Global, tags: usize, bytes: usize) -> Result<Self, OutOfMemory>
        ensures empty { IfOk result (λ tags. tags ≡ []) }
    {
        if tags == 0 {
            return Ok(Self { alloc, row: None });
        }
        let row = TagRow {
            text: Vec::with_capacity(alloc, bytes)?,
            spans: Vec::with_capacity(alloc, tags)?,
        };
        Ok(Self {
            alloc,
            row: Some(Box::new(alloc, row)?),
        })
    }

    /// Adds a tag at the end, also where its key stands already.
    pub fn push(&mut self, key: &str, value: &str) -> Result<(), OutOfMemory>
        ensures ok { OnOk result (self.new ≡ self.old ++ (chars key.now, chars value.now) ∷ []) }
        ensures err { OnErr result (self.new ≡ self.old) }
    {
        if let Some(row) = &mut self.row {
            let TagRow { text, spans } = &mut **row;
            return append(text, spans, key, value);
        }
        self.row = Some(row_of_one(self.alloc, key, value)?);
        Ok(())
    }

    /// The same by rising keys. `None`: a key stands twice.
    pub fn into_tags(self) -> Option<Tags>
        ensures once { IsSome result ↔ HasEachKeyOnce self }
        ensures tags { IfSome result (λ tags. tags ≡ map.from_entries self) }
    {
        let Some(mut row) = self.row else {
            return Some(Tags { row: None });
        };
        let TagRow { text, spans } = &mut *row;
        if put_in_order(text, spans) {
            Some(Tags { row: Some(row) })
        } else {
            None
        }
    }

    /// The same, where each key is above the one before it. `None`: it is not so.
    pub fn into_rising(self) -> Option<Tags>
        ensures rising { IsSome result ↔ T (map.is_sorted (slice_cmp nat_cmp) self) }
        ensures tags { IfSome result (λ tags. tags ≡ map.from_entries self) }
    {
        let Some(row) = self.row else {
            return Some(Tags { row: None });
        };
        if are_rising(&row.text, &row.spans) {
            Some(Tags { row: Some(row) })
        } else {
            None
        }
    }
}

impl Tags {
    /// One tag.
    pub fn one(alloc: Global, key: &str, value: &str) -> Result<Self, OutOfMemory>
        ensures tag { IfOk result (λ tags. tags ≡ map.insert map.empty (chars key.now) (chars value.now)) }
    {
        Ok(Self {
            row: Some(row_of_one(alloc, key, value)?),
        })
    }
}

/// The row of one tag.
fn row_of_one(alloc: Global, key: &str, value: &str) -> Result<Box<TagRow>, OutOfMemory>
    ensures cuts { IfOk result (λ row. AreSpans row.value.text.items row.value.spans.items) }
    ensures tag { IfOk result (λ row. pairs_of row.value.text.items row.value.spans.items ≡ (chars key.now, chars value.now) ∷ []) }
{
    let mut row = TagRow {
        text: Vec::new(alloc),
        spans: Vec::new(alloc),
    };
    append(&mut row.text, &mut row.spans, key, value)?;
    Ok(Box::new(alloc, row)?)
}

/// Puts a tag behind the tags of these spans.
fn append(
    text: &mut Vec<u8>,
    spans: &mut Vec<Span>,
    key: &str,
    value: &str,
) -> Result<(), OutOfMemory>
    requires { AreSpans text.old.items spans.old.items }
    ensures cuts { AreSpans text.new.items spans.new.items }
    ensures added { OnOk result (pairs_of text.new.items spans.new.items
        ≡ pairs_of text.old.items spans.old.items ++ (chars key.now, chars value.now) ∷ []) }
    ensures kept { OnErr result (pairs_of text.new.items spans.new.items ≡ pairs_of text.old.items spans.old.items) }
{
    let start = text.len();
    text.extend_from_slice(key.as_bytes())?;
    let middle = text.len();
    text.extend_from_slice(value.as_bytes())?;
    let end = text.len();
    let span = Span {
        key: start,
        value: middle,
        end,
    };
    spans.push(span)?;
    Ok(())
}

/// Puts spans into the order of their keys, and says whether each key stands once.
fn put_in_order(text: &[u8], spans: &mut [Span]) -> bool
    requires { AreSpans text.now spans.old }
    ensures cuts { AreSpans text.now spans.new }
    ensures once { IsTrue result ↔ HasEachKeyOnce (pairs_of text.now spans.old) }
    ensures rising { IsTrue result → T (map.is_sorted (slice_cmp nat_cmp) (pairs_of text.now spans.new)) }
    ensures map { IsTrue result → map.from_entries {R = slice_cmp nat_cmp} (pairs_of text.now spans.new)
        ≡ map.from_entries (pairs_of text.now spans.old) }
{
    if are_rising(text, spans) {
        return true;
    }
    sort(text, spans);
    are_rising(text, spans)
}

/// Whether each key is above the one before it.
fn are_rising(text: &[u8], spans: &[Span]) -> bool
    requires { AreSpans text.now spans.now }
    ensures rising { IsTrue result ↔ T (map.is_sorted (slice_cmp nat_cmp) (pairs_of text.now spans.now)) }
{
    let mut place = 1;
    while place < spans.len() {
        let earlier = key_at(text, spans, place - 1);
        let key = key_at(text, spans, place);
        if earlier.cmp(key).is_ge() {
            return false;
        }
        place += 1;
    }
    true
}

/// Puts spans into the order of their keys.
fn sort(text: &[u8], spans: &mut [Span])
    requires { AreSpans text.now spans.old }
    ensures cuts { AreSpans text.now spans.new }
    ensures permutation { IsPermutation spans.old spans.new }
    ensures sorted { IsSortedByKey (key_bytes text.now) (slice_cmp nat_cmp) spans.new }
{
    spans.sort_unstable_by(|one, other| key_of(text, one).cmp(key_of(text, other)));
}

/// The bytes of the key of a span, also of one that the text does not have whole.
fn key_of<'a>(text: &'a [u8], span: &Span) -> &'a [u8]
    ensures bytes { result.now ≡ key_bytes text.now span.now }
{
    let end = span.value.min(text.len());
    let start = span.key.min(end);
    &text[start..end]
}
