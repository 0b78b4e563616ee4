//! What is so of all lines and blocks. The bodies are empty: what is stated here is about the definitions.
ghost use Rattle.std.specs.Prelude.{◌≡◌, ◌≤◌, ◌+◌, ◌++◌, ℕ, List, Option, Some, true, codes, length, Ok};
ghost use Rattle.hex.specs.Hex.{IsBytes};
ghost use Rattle.osm_base.specs.declared.bounds.limits.LimitNumbers.{LimitNumbers};
ghost use Rattle.osm_base.specs.declared.values.row.Delta.{Delta};
ghost use Rattle.osm_base.specs.map.Spots.{TableMap};
ghost use Rattle.style_read.specs.Reading.{reading};
ghost use Rattle.style_read.specs.Style.{StyleOf};
ghost use Rattle.delta_feed.specs.Blocks.{Comes, Found, whole};
ghost use Rattle.delta_feed.specs.Line.{line_in};
ghost use Rattle.delta_feed.specs.Place.{may_stand};
ghost use Rattle.delta_feed.specs.Text.{changes_at, delta_line, delta_lines, del_line, full_line, full_lines, more_line, rows_at, set_line, style_line};
ghost use Rattle.delta_feed.specs.Written.{AreWithin, AreWritable, IsTold, changes_of};
ghost use Rattle.delta_feed.specs.declared.block.Block.TheVariants as blocks;
ghost use Rattle.delta_feed.specs.declared.block.Stage.{Stage};
ghost use Rattle.delta_feed.specs.declared.block.Stage.TheVariants as stages;
ghost use Rattle.delta_feed.specs.declared.hexes.TheConstants.{LINE_BYTES};
ghost use Rattle.delta_feed.specs.declared.line.FeedLine.TheVariants as lines;
ghost use Rattle.delta_feed.specs.declared.place.Place.TheVariants as places;
ghost use Rattle.delta_feed.specs.declared.place.Verb.TheVariants as verbs;
ghost use Rattle.delta_feed.specs.declared.words.TheConstants.{LAST_VERSION};

use crate::Place;
use osm_base::Spot;

/// A line that is written is read as what it was written for, wherever it may stand.
pub fn lines_are_read_back(place: Place, spot: Spot, version: u64, bytes: &[u8])
    requires told { IsTold spot }
    requires version { version ≤ LAST_VERSION }
    requires some { 1 ≤ length bytes.now }
    requires short { length bytes.now ≤ LINE_BYTES }
    ensures full { line_in places.Between (full_line version) ≡ Ok (lines.Full version) }
    ensures style { line_in places.Opened (style_line bytes.now) ≡ Ok (lines.Style bytes.now) }
    ensures set { may_stand place verbs.Set ≡ true → line_in place (set_line spot bytes.now) ≡ Ok (lines.Set spot bytes.now) }
    ensures del { may_stand place verbs.Del ≡ true → line_in place (del_line spot) ≡ Ok (lines.Del spot) }
    ensures more { line_in places.Begun (more_line bytes.now) ≡ Ok (lines.More bytes.now) }
    ensures end { may_stand place verbs.End ≡ true → line_in place (codes "end") ≡ Ok lines.End }
    ensures delta { line_in places.Between (delta_line version) ≡ Ok (lines.Delta version) }
{}

/// Whatever the lines of a written block come to, wherever it stands in a file, is that block and what stands behind it.
pub fn blocks_are_read_back()
    ensures full { (limits : LimitNumbers) (base : Option StyleOf) (version : ℕ) (bytes : List ℕ) (style : StyleOf) (tables : TableMap)
        (number : ℕ) (rest : List (List ℕ)) (found : Found) → version ≤ LAST_VERSION → reading bytes ≡ Ok style → 1 ≤ length bytes → IsBytes bytes
        → AreWritable style.tables (rows_at tables) → AreWithin limits number (full_lines version bytes tables)
        → Comes limits base stages.Between number (full_lines version bytes tables ++ rest) found
        → found ≡ whole (blocks.Full version bytes style (changes_of (rows_at tables))) (number + length (full_lines version bytes tables)) rest }
    ensures delta { (limits : LimitNumbers) (style : StyleOf) (delta : Delta) (number : ℕ) (rest : List (List ℕ)) (found : Found)
        → delta.version ≤ LAST_VERSION → AreWritable style.tables (changes_at delta.changes) → AreWithin limits number (delta_lines delta)
        → Comes limits (Some style) stages.Between number (delta_lines delta ++ rest) found
        → found ≡ whole (blocks.Delta (record { version = delta.version; changes = changes_of (changes_at delta.changes) })) (number + length (delta_lines delta)) rest }
{}

/// Of the lines of a file one outcome holds at most.
pub fn one_outcome()
    ensures once { (limits : LimitNumbers) (base : Option StyleOf) (stage : Stage) (number : ℕ) (lines : List (List ℕ)) (one other : Found)
        → Comes limits base stage number lines one → Comes limits base stage number lines other → one ≡ other }
{}
