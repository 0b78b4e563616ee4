//! The tags of an object, kept in one row of bytes by rising keys.
ghost use Rattle.std.specs.Prelude.{◌≡◌, ◌≢◌, ℕ, List, None, Some, Ok, true, ◌<◌, ◌≤◌, length, slice_range, slice_index_or, OnOk, OnErr, IfOk, IfErr, IfSome, IsNone, IsTrue, ◌↔◌};
ghost use Rattle.std.specs.Option.{option_map};
ghost use Rattle.std.specs.Ordering.{nat_cmp};
ghost use Rattle.std.specs.Cmp.Lexicographic.{slice_cmp};
ghost use Rattle.std.specs.List.{slice_get, insert};
ghost use Rattle.std.specs.Str.{IsUtf8, chars};
ghost use Rattle.std.specs.FinMap as map;
ghost use Rattle.osm_base.specs.values.TagText.{key_bytes, value_bytes, AreSpans};
ghost use Rattle.osm_base.specs.declared.values.tags.Span.{Span};
ghost use Rattle.osm_base.specs.values.TagOrder.{pairs_of, AreTags};

mod list;

use crate::{OutOfMemory, TryCopy};
pub use list::TagList;
use std::alloc::Global;
use std::cmp::Ordering;
use std::marker::Model;

/// So many tags are looked through one after the other. Among more a key is looked for by halves.
const FEW: usize = 8;

/// Where the key and the value of a tag stand: from `key` to `value`, and from there to `end`.
#[derive(Clone, Copy)]
struct Span {
    key: usize,
    value: usize,
    end: usize,
}

/// The texts of tags, and where each tag stands in them.
#[derive(Drop)]
struct TagRow {
    text: Vec<u8>,
    spans: Vec<Span>,
}

// Most nodes have no tag, and an entry of a file is as long as its longest form: so a row of tags stands in a place of its own.
/// Keys with their values, each key once, by rising keys.
#[derive(Drop)]
pub struct Tags {
    /// `None`: no tag.
    row: Option<Box<TagRow>>,
}

impl Model for Tags {
    ghost use Rattle.std.specs.Prelude.{ℕ, List};
    ghost use Rattle.std.specs.Ordering.{nat_cmp};
    ghost use Rattle.std.specs.Cmp.Lexicographic.{slice_cmp};
    ghost use Rattle.std.specs.Coded.{coded_list, coded_ℕ};
    ghost use Rattle.std.specs.FinMap as map;

    ghost Value = { map.FinMap (slice_cmp nat_cmp) (List ℕ) };

    ghost coded = { map.code (coded_list coded_ℕ) (coded_list coded_ℕ) };

    ghost use Rattle.osm_base.specs.values.TagOrder.{AreTags};
    ghost use Rattle.osm_base.specs.values.TagRow.{text_in, spans_in, pairs_in};

    ghost view = { λ tags. map.from_entries (pairs_in tags.row) };

    ghost invariant = { λ tags. AreTags (text_in tags.row) (spans_in tags.row) };
}

impl Tags {
    /// No tag.
    pub fn new(_alloc: Global) -> Self
        ensures empty { result ≡ map.empty }
    {
        Self { row: None }
    }

    /// The texts of the tags, and where each stands in them.
    fn parts(&self) -> (&[u8], &[Span])
        ensures tags { AreTags result.0.now result.1.now }
        ensures map { self.now ≡ map.from_entries (pairs_of result.0.now result.1.now) }
    {
        match &self.row {
            Some(row) => (&row.text, &row.spans),
            None => (&[], &[]),
        }
    }

    /// The value of a key.
    pub fn get(&self, key: &str) -> Option<&str>
        ensures value { option_map (λ value. chars value.now) result ≡ map.get self.now (chars key.now) }
    {
        let (text, spans) = self.parts();
        value_of(text, spans, key)
    }

    /// How many tags there are.
    pub fn len(&self) -> usize
        ensures count { result ≡ map.len self.now }
    {
        let (_, spans) = self.parts();
        spans.len()
    }

    /// Whether there is no tag.
    pub fn is_empty(&self) -> bool
        ensures none { IsTrue result ↔ (map.len self.now ≡ 0) }
    {
        let (_, spans) = self.parts();
        spans.is_empty()
    }

    /// The tag at this place by rising keys, as a key and its value.
    pub fn nth(&self, index: usize) -> (&str, &str)
        requires { index < map.len self.now }
        ensures tag { slice_get (map.entries self.now) index ≡ Some (chars result.0.now, chars result.1.now) }
    {
        let (text, spans) = self.parts();
        (key_at(text, spans, index), value_at(text, spans, index))
    }
}

/// The value of a key among the tags of these spans.
fn value_of<'a>(text: &'a [u8], spans: &[Span], key: &str) -> Option<&'a str>
    requires { AreTags text.now spans.now }
    ensures value { option_map (λ value. chars value.now) result
        ≡ map.find (slice_cmp nat_cmp) (chars key.now) (pairs_of text.now spans.now) }
{
    if spans.len() <= FEW {
        return value_in(text, spans, key);
    }
    let place = search(text, spans, key)?;
    Some(value_at(text, spans, place))
}

/// The value of a key, looked for from the first tag on.
fn value_in<'a>(text: &'a [u8], spans: &[Span], key: &str) -> Option<&'a str>
    requires { AreSpans text.now spans.now }
    ensures value { option_map (λ value. chars value.now) result
        ≡ map.find (slice_cmp nat_cmp) (chars key.now) (pairs_of text.now spans.now) }
{
    for span in spans {
        if span_text(text, span.key, span.value) == key {
            return Some(span_text(text, span.value, span.end));
        }
    }
    None
}

/// The key of the tag at a place.
fn key_at<'a>(text: &'a [u8], spans: &[Span], index: usize) -> &'a str
    requires cuts { AreSpans text.now spans.now }
    requires within { index < length spans.now }
    ensures key { (past : Span) → result.now ≡ key_bytes text.now (slice_index_or spans.now index past) }
{
    let span = spans[index];
    span_text(text, span.key, span.value)
}

/// The value of the tag at a place.
fn value_at<'a>(text: &'a [u8], spans: &[Span], index: usize) -> &'a str
    requires cuts { AreSpans text.now spans.now }
    requires within { index < length spans.now }
    ensures value { (past : Span) → result.now ≡ value_bytes text.now (slice_index_or spans.now index past) }
{
    let span = spans[index];
    span_text(text, span.value, span.end)
}

/// The place of a key, looked for by halves.
fn search(text: &[u8], spans: &[Span], key: &str) -> Option<usize>
    requires { AreTags text.now spans.now }
    ensures within { IfSome result (λ place. place < length spans.now) }
    ensures found { IfSome result (λ place. (past : Span) → map.find (slice_cmp nat_cmp) (chars key.now) (pairs_of text.now spans.now)
        ≡ Some (chars (value_bytes text.now (slice_index_or spans.now place past)))) }
    ensures absent { IsNone result → map.find (slice_cmp nat_cmp) (chars key.now) (pairs_of text.now spans.now) ≡ None }
{
    let mut low = 0;
    let mut high = spans.len();
    while low < high {
        let middle = low + (high - low) / 2;
        match key_at(text, spans, middle).cmp(key) {
            Ordering::Less => low = middle + 1,
            Ordering::Equal => return Some(middle),
            Ordering::Greater => high = middle,
        }
    }
    None
}

/// The text that stands between two places of a row of bytes.
fn span_text(text: &[u8], from: usize, to: usize) -> &str
    requires order { from ≤ to }
    requires within { to ≤ length text.now }
    requires utf8 { IsUtf8 (slice_range text.now from to) }
    ensures bytes { result.now ≡ slice_range text.now from to }
{
    // SAFETY: the bytes are UTF-8, which is the premise.
    unsafe { str::from_utf8_unchecked(&text[from..to]) }
}

impl TryCopy for Tags {
    fn copy(&self, alloc: Global) -> Result<Self, OutOfMemory> {
        let Some(row) = &self.row else {
            return Ok(Self { row: None });
        };
        let row = TagRow {
            text: Vec::from_slice(alloc, &row.text)?,
            spans: Vec::from_slice(alloc, &row.spans)?,
        };
        Ok(Self {
            row: Some(Box::new(alloc, row)?),
        })
    }
}
