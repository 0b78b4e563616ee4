//! What always holds of the style's text, of the most squares, and of a file that is written.
ghost use Rattle.std.specs.Prelude.{◌≡◌, ◌≤◌, ℕ, List, Ok, length};
ghost use Rattle.std.specs.List.{AllByRecursion};
ghost use Rattle.osm_base.specs.declared.values.object.Entry.{Entry};
ghost use Rattle.object_fold.specs.Change.{IsChange};
ghost use Rattle.style_read.specs.Reading.{reading};
ghost use Rattle.demo_map.specs.Demo.{demo_first, demo_input, demo_second};
ghost use Rattle.demo_map.specs.Style.{DEMO_STYLE, demo_style};
ghost use Rattle.demo_map.specs.Written.{AreReadAgain, FitsLine};

use crate::squares::MAX_SQUARES;
use osm_base::MAX_ENTRIES;

/// The text of the style has no fault.
pub fn style_is_read()
    ensures read { reading DEMO_STYLE ≡ Ok demo_style }
{}

/// The number that code and definitions share.
pub fn shared_numbers()
    ensures squares { MAX_SQUARES ≡ 100000 }
{}

/// A file of entries that rise, as `write_entry` of `opl_object` writes them, is read as these.
pub fn written_is_read()
    ensures law { (entries : List Entry) → AllByRecursion FitsLine entries → IsChange entries → length entries ≤ MAX_ENTRIES
        → AreReadAgain entries }
{}

/// Files of the entries of a map and of its two changes, as `write_entry` of `opl_object` writes them, are read as these.
pub fn demo_is_read()
    ensures input { (count : ℕ) → count ≤ MAX_SQUARES → AreReadAgain (demo_input count) }
    ensures first { (count : ℕ) → count ≤ MAX_SQUARES → AreReadAgain (demo_first count) }
    ensures second { (count : ℕ) → count ≤ MAX_SQUARES → AreReadAgain (demo_second count) }
{}
