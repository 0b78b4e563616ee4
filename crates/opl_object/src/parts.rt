//! What the fields of a line say.
ghost use Rattle.std.specs.Prelude.{◌≡◌, ◌<◌, Ok, IfOk, IfSome, IsNone};
ghost use Rattle.std.specs.List.{position_or_len, before_first};
ghost use Rattle.std.specs.FinMap as map;
ghost use Rattle.opl_object.specs.Earth.{AreOnEarth};
ghost use Rattle.opl_object.specs.Fields.{IsValueEnd, is_blank, fields_of};
ghost use Rattle.opl_object.specs.Parts.{nothing, with_visible, with_lon, with_lat, with_value, with_field, parts_of};
ghost use Rattle.opl_object.specs.Seen.{stands};
ghost use Rattle.opl_object.specs.Why.{Gives, Tells};

use crate::coordinate::coordinate;
use crate::fields::{blank_place, field_at};
use crate::head::{begun, passed_end};
use crate::letter::{Letter, Seen, letter_at};
use crate::members::members_of;
use crate::nodes::{FURTHEST_EAST, FURTHEST_NORTH, nodes_of};
use crate::number::{is_time, is_whole};
use crate::tags::tags_of;
use crate::text::check_text;
use crate::usual::usual_coordinate;
use crate::{LineRefused, Why};
use osm_base::{Ids, Kind, Members, Tags};
use std::alloc::Global;

/// What the fields of a line say.
#[derive(Drop)]
pub struct Parts {
    pub deleted: bool,
    pub lon: Option<i32>,
    pub lat: Option<i32>,
    pub tags: Tags,
    pub nodes: Ids,
    pub members: Members,
}

impl Parts {
    /// Nothing yet.
    pub(crate) fn new(alloc: Global) -> Self
        ensures nothing { result ≡ nothing }
    {
        Self {
            deleted: false,
            lon: None,
            lat: None,
            tags: Tags::new(alloc),
            nodes: Ids::new(alloc),
            members: Members::new(alloc),
        }
    }

    /// Adds the value of a letter.
    #[tactic(auto, unfolding(crate::specs::Parts::with_value, crate::specs::Text::text_of, crate::specs::Text::checked_text))]
    fn add(
        &mut self,
        alloc: Global,
        usual: bool,
        letter: Letter,
        value: &str,
    ) -> Result<(), LineRefused>
        ensures parts { Gives (λ _. self.new) result (with_value letter value.now self.old) }
    {
        match letter {
            Letter::Version | Letter::Changeset | Letter::UserId => {
                if !is_whole(value.as_bytes()) {
                    return Err(LineRefused::Bad(Why::Number));
                }
                Ok(())
            }
            Letter::Time => {
                if !is_time(value.as_bytes()) {
                    return Err(LineRefused::Bad(Why::Number));
                }
                Ok(())
            }
            Letter::Visible => Ok(self.add_visible(value)?),
            Letter::User => Ok(check_text(value)?),
            Letter::Tags => {
                self.tags = tags_of(alloc, usual, value)?;
                Ok(())
            }
            Letter::Lon => Ok(self.add_lon(value)?),
            Letter::Lat => Ok(self.add_lat(value)?),
            Letter::Nodes => {
                self.nodes = nodes_of(alloc, usual, value)?;
                Ok(())
            }
            Letter::Members => {
                self.members = members_of(alloc, usual, value)?;
                Ok(())
            }
        }
    }

    /// Adds the value of a letter where the text begins with one in its usual form, and tells where it ends.
    #[tactic(auto, unfolding(crate::specs::Parts::with_value, crate::specs::Text::text_of))]
    fn add_usual(&mut self, usual: bool, letter: Letter, text: &[u8]) -> Option<usize>
        ensures end { IfSome result (IsValueEnd (λ value. with_value letter value self.old ≡ Ok self.new) text.now) }
        ensures kept { IsNone result → self.new ≡ self.old }
    {
        if !usual {
            return None;
        }
        match letter {
            Letter::Lon => self.add_usual_lon(text),
            Letter::Lat => self.add_usual_lat(text),
            _ => passed_end(letter, text),
        }
    }

    /// Adds a longitude in its usual form.
    fn add_usual_lon(&mut self, text: &[u8]) -> Option<usize>
        ensures end { IfSome result (IsValueEnd (λ value. with_lon value self.old ≡ Ok self.new) text.now) }
        ensures kept { IsNone result → self.new ≡ self.old }
    {
        let (lon, end) = usual_coordinate(FURTHEST_EAST, text)?;
        self.lon = Some(lon);
        Some(end)
    }

    /// Adds a latitude in its usual form.
    fn add_usual_lat(&mut self, text: &[u8]) -> Option<usize>
        ensures end { IfSome result (IsValueEnd (λ value. with_lat value self.old ≡ Ok self.new) text.now) }
        ensures kept { IsNone result → self.new ≡ self.old }
    {
        let (lat, end) = usual_coordinate(FURTHEST_NORTH, text)?;
        self.lat = Some(lat);
        Some(end)
    }

    /// Adds a longitude, where there is one.
    fn add_lon(&mut self, value: &str) -> Result<(), Why>
        ensures parts { Tells (λ _. self.new) result (with_lon value.now self.old) }
    {
        if value.is_empty() {
            return Ok(());
        }
        self.lon = Some(coordinate(FURTHEST_EAST, value.as_bytes())?);
        Ok(())
    }

    /// Adds a latitude, where there is one.
    fn add_lat(&mut self, value: &str) -> Result<(), Why>
        ensures parts { Tells (λ _. self.new) result (with_lat value.now self.old) }
    {
        if value.is_empty() {
            return Ok(());
        }
        self.lat = Some(coordinate(FURTHEST_NORTH, value.as_bytes())?);
        Ok(())
    }

    /// Adds whether the object is deleted.
    fn add_visible(&mut self, value: &str) -> Result<(), Why>
        ensures parts { Tells (λ _. self.new) result (with_visible value.now self.old) }
    {
        match value.as_bytes() {
            [b'V'] => Ok(()),
            [b'D'] => {
                self.deleted = true;
                Ok(())
            }
            _ => Err(Why::Field),
        }
    }
}

/// What the fields of a line of this kind say.
pub(crate) fn read_fields(
    alloc: Global,
    usual: bool,
    kind: Kind,
    text: &str,
) -> Result<Parts, LineRefused>
    ensures parts { Gives (λ parts. parts) result (parts_of kind (fields_of text.now)) }
    ensures earth { IfOk result AreOnEarth }
{
    let (mut seen, mut left) = begun(usual, text);
    let mut parts = Parts::new(alloc);
    while let Some(field) = field_at(left) {
        let end = read_field(alloc, usual, kind, &mut seen, &mut parts, field)?;
        let (_, later) = field.split_at(end);
        left = later;
    }
    Ok(parts)
}

/// Adds what the field in front of a text says, and tells where it ends.
fn read_field(
    alloc: Global,
    usual: bool,
    kind: Kind,
    seen: &mut Seen,
    parts: &mut Parts,
    text: &str,
) -> Result<usize, LineRefused>
    requires { 0 < position_or_len is_blank text.now }
    ensures parts { Gives (λ _. (stands seen.new, parts.new)) result
        (with_field kind (stands seen.old, parts.old) (before_first is_blank text.now)) }
    ensures end { IfOk result (λ end. end ≡ position_or_len is_blank text.now) }
{
    let Some((letter, value)) = letter_at(kind, text) else {
        return Err(LineRefused::Bad(Why::Field));
    };
    if seen.add(letter) {
        return Err(LineRefused::Bad(Why::Repeated));
    }
    if let Some(end) = parts.add_usual(usual, letter, value.as_bytes()) {
        return Ok(end + 1);
    }
    let end = blank_place(value.as_bytes());
    let (value, _) = value.split_at(end);
    parts.add(alloc, usual, letter, value)?;
    Ok(end + 1)
}
