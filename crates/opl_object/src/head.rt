//! The fields that most lines begin with behind their key, and that no entry keeps.
ghost use Rattle.std.specs.Prelude.{◌≡◌, Ok, Some, IfSome};
ghost use Rattle.osm_base.specs.declared.values.key.Kind.{Kind};
ghost use Rattle.opl_object.specs.declared.parts.Parts.{Parts};
ghost use Rattle.opl_object.specs.Fields.{IsValueEnd};
ghost use Rattle.opl_object.specs.Letter.{letter_of, byte_of, none_stood, head_stood};
ghost use Rattle.opl_object.specs.Parts.{nothing, with_value, said_behind, PassesLetter};
ghost use Rattle.opl_object.specs.Seen.{stands};

use crate::ascii::SPACE;
use crate::fields::behind;
use crate::letter::{Letter, Seen};
use crate::usual::{number_end, plain_end, there_end, time_end};

/// The letters that stood in front of a text, and the text behind their fields.
pub(crate) fn begun(usual: bool, text: &str) -> (Seen, &str)
    ensures same { (kind : Kind) → said_behind kind (stands result.0, nothing) result.1.now
        ≡ said_behind kind (none_stood, nothing) text.now }
{
    if !usual {
        return (Seen::new(), text);
    }
    match behind_head(text) {
        Some(rest) => (head_seen(), rest),
        None => (Seen::new(), text),
    }
}

/// What stands behind the fields that most lines have, in their usual order.
fn behind_head(text: &str) -> Option<&str>
    ensures same { IfSome result (λ rest. (kind : Kind) → said_behind kind (head_stood, nothing) rest.now
        ≡ said_behind kind (none_stood, nothing) text.now) }
{
    let text = pass(Letter::Version, text)?;
    let text = pass(Letter::Visible, text)?;
    let text = pass(Letter::Changeset, text)?;
    let text = pass(Letter::Time, text)?;
    let text = pass(Letter::UserId, text)?;
    Some(text)
}

/// The letters of these fields.
fn head_seen() -> Seen
    ensures letters { stands result ≡ head_stood }
{
    let mut seen = Seen::new();
    seen.add(Letter::Version);
    seen.add(Letter::Visible);
    seen.add(Letter::Changeset);
    seen.add(Letter::Time);
    seen.add(Letter::UserId);
    seen
}

/// What stands behind a field of this letter.
#[inline(always)]
fn pass(letter: Letter, text: &str) -> Option<&str>
    ensures passes { IfSome result (λ rest. PassesLetter letter text.now rest.now) }
{
    let field = behind(text, SPACE)?;
    let value = behind(field, letter.byte())?;
    let end = passed_end(letter, value.as_bytes())?;
    let (_, rest) = value.split_at(end);
    Some(rest)
}

/// Where the value of a letter ends that is in its usual form, and that no entry keeps.
#[inline(always)]
#[tactic(auto, unfolding(crate::specs::Parts::with_value, crate::specs::Letter::letter_of))]
pub(crate) fn passed_end(letter: Letter, text: &[u8]) -> Option<usize>
    ensures end { IfSome result (IsValueEnd (λ value. (parts : Parts) → with_value letter value parts ≡ Ok parts) text.now) }
    ensures common { IfSome result (λ _. (kind : Kind) → letter_of kind (byte_of letter) ≡ Some letter) }
{
    match letter {
        Letter::Version | Letter::Changeset | Letter::UserId => number_end(text),
        Letter::Time => time_end(text),
        Letter::Visible => there_end(text),
        Letter::User => plain_end(text),
        Letter::Tags | Letter::Lon | Letter::Lat | Letter::Nodes | Letter::Members => None,
    }
}
