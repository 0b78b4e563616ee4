//! How a text is cut.
ghost use Rattle.std.specs.Prelude.{◌≡◌, option_map};
ghost use Rattle.style_read.specs.Text.{before_last, around_first};
ghost use Rattle.style_read.specs.Text as spec;

use crate::condition::{BANG, EQUALS};

/// What stands behind this beginning of a text. `None`: it does not begin so.
pub(crate) fn behind<'a>(text: &'a str, front: &str) -> Option<&'a str>
    ensures rest { option_map (λ rest. rest.now) result ≡ spec.behind front.now text.now }
{
    text.strip_prefix(front)
}

/// What stands before a last `!`. `None`: there is none at the end.
pub(crate) fn before_last_bang(text: &str) -> Option<&str>
    ensures front { option_map (λ front. front.now) result ≡ before_last BANG text.now }
{
    text.strip_suffix('!')
}

/// What stands before and behind the first `=`. `None`: there is none.
pub(crate) fn around_first_equals(text: &str) -> Option<(&str, &str)>
    ensures parts { option_map (λ (front, back). (front.now, back.now)) result ≡ around_first EQUALS text.now }
{
    text.split_once('=')
}
