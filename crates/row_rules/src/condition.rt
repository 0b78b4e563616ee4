//! Conditions on the tags of an object.
ghost use Rattle.std.specs.Prelude.{◌≡◌, false};
ghost use Rattle.std.specs.Str.{chars};
ghost use Rattle.row_rules.specs.Condition as spec;

use osm_base::{Tags, Text};
use style_read::{Condition, Selection};

/// Whether a relation with these tags meets a selection.
pub fn meets(selection: &Selection, tags: &Tags) -> bool
    ensures meets { result ≡ spec.meets selection.now tags.now }
{
    for condition in selection.conditions.as_slice() {
        if !holds_of_tags(condition, tags) {
            return false;
        }
    }
    true
}

/// Whether the tag with a key has this value.
fn has_value(tags: &Tags, key: &str, value: &Text) -> bool
    ensures value { result ≡ spec.has_value tags.now (chars key.now) value.now }
{
    match tags.get(key) {
        Some(own) => value.is(own),
        None => false,
    }
}

/// Whether a condition holds of tags; none holds that asks for a selection.
pub fn holds_of_tags(condition: &Condition, tags: &Tags) -> bool
    ensures holds { result ≡ spec.holds (λ _. false) tags.now condition.now }
{
    match condition {
        Condition::Has(key) => tags.get(key.as_str()).is_some(),
        Condition::Lacks(key) => tags.get(key.as_str()).is_none(),
        Condition::Is { key, value } => has_value(tags, key.as_str(), value),
        Condition::Isnt { key, value } => !has_value(tags, key.as_str(), value),
        Condition::Selected(_) => false,
    }
}
