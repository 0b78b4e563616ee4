//! The letters of the fields, and which of them stood.
ghost use Rattle.std.specs.Prelude.{◌≡◌, ◌<◌, Bool, true, false, IfSome};
ghost use Rattle.std.specs.Option.{option_map};
ghost use Rattle.opl_object.specs.declared.letter.Letter.{Letter};
ghost use Rattle.opl_object.specs.Letter.{letter_of, letter_at, byte_of, also};
ghost use Rattle.opl_object.specs.Seen.{flag_of, stands};

use crate::fields::{after_first, first_byte};
use osm_base::Kind;

/// What a field tells, which its first character says.
#[derive(Clone, Copy)]
pub enum Letter {
    Version,
    Visible,
    Changeset,
    Time,
    UserId,
    User,
    Tags,
    Lon,
    Lat,
    Nodes,
    Members,
}

impl Letter {
    /// The byte that it is.
    pub(crate) fn byte(self) -> u8
        ensures value { result ≡ byte_of self }
        ensures some { 0 < result }
        ensures ascii { result < 128 }
    {
        match self {
            Letter::Version => b'v',
            Letter::Visible => b'd',
            Letter::Changeset => b'c',
            Letter::Time => b't',
            Letter::UserId => b'i',
            Letter::User => b'u',
            Letter::Tags => b'T',
            Letter::Lon => b'x',
            Letter::Lat => b'y',
            Letter::Nodes => b'N',
            Letter::Members => b'M',
        }
    }

    /// The place of its flag.
    fn place(self) -> usize
        ensures value { result ≡ flag_of self }
        ensures within { result < 16 }
    {
        match self {
            Letter::Version => 0,
            Letter::Visible => 1,
            Letter::Changeset => 2,
            Letter::Time => 3,
            Letter::UserId => 4,
            Letter::User => 5,
            Letter::Tags => 6,
            Letter::Lon => 7,
            Letter::Lat => 8,
            Letter::Nodes => 9,
            Letter::Members => 10,
        }
    }
}

/// The letter that a byte is, in a line of this kind.
#[tactic(auto, unfolding(crate::specs::Letter::letter_of))]
pub(crate) fn letter_of(kind: Kind, byte: u8) -> Option<Letter>
    ensures value { result ≡ letter_of kind byte }
    ensures some { IfSome result (λ _. 0 < byte) }
    ensures ascii { IfSome result (λ _. byte < 128) }
{
    match (byte, kind) {
        (b'v', _) => Some(Letter::Version),
        (b'd', _) => Some(Letter::Visible),
        (b'c', _) => Some(Letter::Changeset),
        (b't', _) => Some(Letter::Time),
        (b'i', _) => Some(Letter::UserId),
        (b'u', _) => Some(Letter::User),
        (b'T', _) => Some(Letter::Tags),
        (b'x', Kind::Node) => Some(Letter::Lon),
        (b'y', Kind::Node) => Some(Letter::Lat),
        (b'N', Kind::Way) => Some(Letter::Nodes),
        (b'M', Kind::Relation) => Some(Letter::Members),
        _ => None,
    }
}

/// The letter in front of a field, and the value behind it.
pub(crate) fn letter_at(kind: Kind, field: &str) -> Option<(Letter, &str)>
    ensures value { option_map (λ (letter, value). (letter, value.now)) result ≡ letter_at kind field.now }
{
    match letter_of(kind, first_byte(field)) {
        Some(letter) => Some((letter, after_first(field))),
        None => None,
    }
}

/// The letters that stood in a line.
#[derive(Drop)]
pub struct Seen {
    flags: [bool; 16],
}

impl Seen {
    /// None.
    pub fn new() -> Self
        ensures none { (letter : Letter) → stands result letter ≡ false }
    {
        Self { flags: [false; 16] }
    }

    /// Whether the letter stood before; it stands from now on.
    pub fn add(&mut self, letter: Letter) -> bool
        ensures before { result ≡ stands self.old letter }
        ensures after { (other : Letter) → stands self.new other ≡ also (stands self.old) letter other }
    {
        let place = letter.place();
        let before = self.flags[place];
        self.flags[place] = true;
        before
    }
}
