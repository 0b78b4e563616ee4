//! A line of a file of blocks.
ghost use Rattle.std.specs.Prelude.{◌≡◌, ◌≤◌, [], true, IfOk};
ghost use Rattle.delta_feed.specs.Place.{may_stand};
ghost use Rattle.delta_feed.specs.declared.place.Verb.TheVariants as verbs;
ghost use Rattle.delta_feed.specs.Line.{behind, bytes_by, del_by, line_in, set_by, spot_by, standing, verb_in, verb_of, version_by};
ghost use Rattle.delta_feed.specs.Sound.{IsFitLine, IsLineOf};
ghost use Rattle.delta_feed.specs.Why.{Gives};
ghost use Rattle.delta_feed.specs.Words.{words_of};

use crate::hexes::{hex_in, is_hex};
use crate::place::may_stand;
use crate::words::{LAST_VERSION, TABLES, bounded_number, cut, kind_in, last_word, next_word};
use crate::{FeedWhy, LineRefused, Place, Verb};
use osm_base::{Bytes, Key, MAX_ID, Spot};
use std::alloc::Global;

/// What a line of a file of blocks says.
#[derive(Drop)]
pub enum FeedLine {
    /// Whole tables begin, those of this version.
    Full(u64),
    /// The difference begins that made this version.
    Delta(u64),
    /// The bytes of the style, or the first of them.
    Style(Bytes),
    /// The bytes of the row that stands at a spot, or the first of them.
    Set(Spot, Bytes),
    /// No row stands at a spot any more.
    Del(Spot),
    /// Bytes that go on where those of the line before end.
    More(Bytes),
    /// The block ends.
    End,
}

/// The line that bytes are in this place.
#[tactic(auto, unfolding(crate::specs::Line::line_in, crate::specs::Line::line_of))]
pub fn read_line(alloc: Global, place: Place, line: &[u8]) -> Result<FeedLine, LineRefused>
    ensures line { Gives result (line_in place line.now) }
    ensures stands { IfOk result (λ read. may_stand place (verb_of read) ≡ true) }
    ensures fits { IfOk result IsFitLine }
{
    match cut(line) {
        None => {
            let verb = verb_in(line)?;
            let verb = standing(place, verb)?;
            Ok(alone(verb)?)
        }
        Some((word, rest)) => {
            let verb = verb_in(word)?;
            let verb = standing(place, verb)?;
            behind(alloc, verb, rest)
        }
    }
}

/// What the first word says, where it may stand here.
fn standing(place: Place, verb: Verb) -> Result<Verb, FeedWhy>
    ensures verb { result ≡ standing place verb }
    ensures same { IfOk result (λ own. own ≡ verb) }
    ensures stands { IfOk result (λ own. may_stand place own ≡ true) }
{
    if may_stand(place, verb) {
        Ok(verb)
    } else {
        Err(FeedWhy::Form)
    }
}

/// What the first word says.
#[tactic(auto, unfolding(crate::specs::Line::verb_in))]
fn verb_in(word: &[u8]) -> Result<Verb, FeedWhy>
    ensures verb { result ≡ verb_in word.now }
{
    match word {
        [b's', b'e', b't'] => Ok(Verb::Set),
        [b'd', b'e', b'l'] => Ok(Verb::Del),
        [b'm', b'o', b'r', b'e'] => Ok(Verb::More),
        [b'e', b'n', b'd'] => Ok(Verb::End),
        [b'd', b'e', b'l', b't', b'a'] => Ok(Verb::Delta),
        [b'f', b'u', b'l', b'l'] => Ok(Verb::Full),
        [b's', b't', b'y', b'l', b'e'] => Ok(Verb::Style),
        _ => Err(FeedWhy::Form),
    }
}

/// The line that a word alone is.
#[tactic(auto, unfolding(crate::specs::Line::behind, crate::specs::Line::opened_by, crate::specs::Line::spelled_by, crate::specs::Line::set_by, crate::specs::Line::del_by, crate::specs::Words::last_word, crate::specs::Words::next_word))]
fn alone(verb: Verb) -> Result<FeedLine, FeedWhy>
    ensures line { result ≡ behind verb [] }
    ensures says { IfOk result (IsLineOf verb) }
{
    match verb {
        Verb::End => Ok(FeedLine::End),
        _ => Err(FeedWhy::Form),
    }
}

/// The line that these words behind the first one make.
#[tactic(auto, unfolding(crate::specs::Line::behind, crate::specs::Line::opened_by, crate::specs::Line::spelled_by))]
fn behind(alloc: Global, verb: Verb, words: &[u8]) -> Result<FeedLine, LineRefused>
    ensures line { Gives result (behind verb (words_of words.now)) }
    ensures says { IfOk result (IsLineOf verb) }
{
    match verb {
        Verb::Full => Ok(FeedLine::Full(version_in(words)?)),
        Verb::Delta => Ok(FeedLine::Delta(version_in(words)?)),
        Verb::Style => Ok(FeedLine::Style(bytes_in(alloc, words)?)),
        Verb::More => Ok(FeedLine::More(bytes_in(alloc, words)?)),
        Verb::Set => set_by(alloc, words),
        Verb::Del => Ok(del_by(words)?),
        Verb::End => Err(LineRefused::Bad(FeedWhy::Form)),
    }
}

/// The number of a version, which is the one word that is left.
fn version_in(words: &[u8]) -> Result<u64, FeedWhy>
    ensures version { result ≡ version_by (words_of words.now) }
    ensures fits { IfOk result (λ version. version ≤ LAST_VERSION) }
{
    let digits = last_word(words)?;
    bounded_number(0, LAST_VERSION, digits)
}

/// The bytes that the one word that is left spells.
#[tactic(auto, unfolding(crate::specs::Hexes::hex_in))]
fn bytes_in(alloc: Global, words: &[u8]) -> Result<Bytes, LineRefused>
    ensures bytes { Gives result (bytes_by (words_of words.now)) }
{
    if is_hex(words) {
        return hex_in(alloc, words);
    }
    last_word(words)?;
    Err(LineRefused::Bad(FeedWhy::Hex))
}

/// The spot of a row, by its three words.
fn spot_in(table: &[u8], letter: &[u8], id: &[u8]) -> Result<Spot, FeedWhy>
    ensures spot { result ≡ spot_by table.now letter.now id.now }
{
    let kind = kind_in(letter)?;
    let table = bounded_number(0, TABLES, table)?;
    let id = bounded_number(1, MAX_ID, id)?;
    Ok(Spot {
        table: table as u32,
        key: Key::new(kind, id),
    })
}

/// A row that is set.
#[tactic(auto, unfolding(crate::specs::Hexes::hex_in, crate::specs::Line::set_by))]
fn set_by(alloc: Global, words: &[u8]) -> Result<FeedLine, LineRefused>
    ensures line { Gives result (set_by (words_of words.now)) }
    ensures says { IfOk result (IsLineOf verbs.Set) }
{
    let (table, rest) = next_word(words)?;
    let (letter, rest) = next_word(rest)?;
    let (id, rest) = next_word(rest)?;
    if !is_hex(rest) {
        last_word(rest)?;
        spot_in(table, letter, id)?;
        return Err(LineRefused::Bad(FeedWhy::Hex));
    }
    let spot = spot_in(table, letter, id)?;
    let bytes = hex_in(alloc, rest)?;
    Ok(FeedLine::Set(spot, bytes))
}

/// A row that is taken away.
#[tactic(auto, unfolding(crate::specs::Line::del_by))]
fn del_by(words: &[u8]) -> Result<FeedLine, FeedWhy>
    ensures line { result ≡ del_by (words_of words.now) }
    ensures says { IfOk result (IsLineOf verbs.Del) }
{
    let (table, rest) = next_word(words)?;
    let (letter, rest) = next_word(rest)?;
    let id = last_word(rest)?;
    let spot = spot_in(table, letter, id)?;
    Ok(FeedLine::Del(spot))
}
