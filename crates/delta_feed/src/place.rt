//! Which lines may stand where.
ghost use Rattle.std.specs.Prelude.{◌≡◌};
ghost use Rattle.delta_feed.specs.Place.{may_stand};

/// A place in a file of blocks.
#[derive(Clone, Copy)]
pub enum Place {
    /// No block has begun.
    Between,
    /// A block of the whole tables has, and its style is to come.
    Opened,
    /// The rows of whole tables.
    Full,
    /// The rows of a difference.
    Delta,
    /// The bytes of the line before go on.
    Begun,
}

/// What the first word of a line says.
#[derive(Clone, Copy)]
pub enum Verb {
    Full,
    Delta,
    Style,
    Set,
    Del,
    More,
    End,
}

/// Whether such a line may stand in a place.
pub(crate) fn may_stand(place: Place, verb: Verb) -> bool
    ensures value { result ≡ may_stand place verb }
{
    match (place, verb) {
        (Place::Between, Verb::Full | Verb::Delta) => true,
        (Place::Opened, Verb::Style) => true,
        (Place::Full, Verb::Set | Verb::End) => true,
        (Place::Delta, Verb::Set | Verb::Del | Verb::End) => true,
        (Place::Begun, Verb::More) => true,
        _ => false,
    }
}
