//! What holds of sound stores, and of those that follow another one.
ghost use Rattle.std.specs.Prelude.{◌≡◌, List, ℕ};
ghost use Rattle.osm_base.specs.declared.values.row.Delta.{Delta};
ghost use Rattle.osm_base.specs.map.Objects.{ObjectSet};
ghost use Rattle.osm_base.specs.map.Spots.{changed_all};
ghost use Rattle.bucket_store.specs.Image.{HasImage, Image};
ghost use Rattle.delta_feed.specs.declared.block.Block.{Block};
ghost use Rattle.row_rules.specs.Row.{tables};
ghost use Rattle.store_check.specs.Maps.{KnowsTags};
ghost use Rattle.style_read.specs.Style.{StyleOf};
ghost use Rattle.update_flow.specs.Changes.{IsDeltaOf};
ghost use Rattle.update_flow.specs.History.{state_after};
ghost use Rattle.update_flow.specs.Sound.{IsSound, IsSoundImport};
ghost use Rattle.update_flow.specs.Sources.{AreOf, HoldsSource, Source, steps_of};
ghost use Rattle.update_flow.specs.Stands.{StandsFor};
ghost use Rattle.update_flow.specs.State.{Holding, State, formatted, imported};

/// A sound store that was imported, and of whose nodes all tags are known, stands for what it holds.
pub fn sound_stands()
    ensures stands { (bytes : List ℕ) (image : Image) (held : Holding) → HasImage image bytes → IsSoundImport held image → KnowsTags image
        → StandsFor bytes (imported held) }
{}

/// What stands for a store that was only made, or for an imported one, is sound.
pub fn standing_is_sound()
    ensures made { (bytes : List ℕ) → StandsFor bytes formatted → IsSound bytes }
    ensures filled { (bytes : List ℕ) (held : Holding) → StandsFor bytes (imported held) → IsSound bytes }
{}

/// Whichever blocks of a source a store takes, in any order and however often, it holds then the tables that the source had at the version
/// that it tells. What an append tells of its change leads from the tables before it to those behind it, as a block of a source does.
pub fn a_follower_holds_its_source()
    ensures holds { (source : Source) (blocks : List Block) (state : State) → AreOf source blocks → HoldsSource source state
        → HoldsSource source (state_after (record { base = state; steps = steps_of blocks })) }
    ensures appended { (style : StyleOf) (old new : ObjectSet) (number : ℕ) (delta : Delta) → IsDeltaOf style old new number delta
        → changed_all (tables style old) delta.changes ≡ tables style new }
{}
