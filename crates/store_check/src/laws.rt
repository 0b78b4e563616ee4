//! What holds of sound stores.
ghost use Rattle.std.specs.Prelude.{Err, List, ℕ};
ghost use Rattle.osm_base.specs.map.Objects.{ObjectSet};
ghost use Rattle.style_read.specs.Style.{StyleOf};
ghost use Rattle.object_fold.specs.Listings.{HasIds};
ghost use Rattle.value_bytes.specs.declared.store_map.StoreMap.{StoreMap};
ghost use Rattle.page_journal.specs.declared.fault.StoreFault.TheVariants.{BadStore};
ghost use Rattle.chain_store.specs.Directories.{IsCount};
ghost use Rattle.chain_store.specs.Kept.{AreLong};
ghost use Rattle.chain_store.specs.State.{IsState};
ghost use Rattle.chain_store.specs.Store.{Keeps};
ghost use Rattle.chain_store.specs.declared.kept.Kept.{Kept};
ghost use Rattle.bucket_store.specs.Image.{Image, Spells};
ghost use Rattle.store_check.specs.BadPage.{AreChains, AreLoaded, AreOwned, Surveys, buckets_told};
ghost use Rattle.store_check.specs.Maps.{HasSoundMapsOf};
ghost use Rattle.store_check.specs.Values.{AreRight, NodeMap, ObjectMap, ReadsObjects, objects_of};

/// Where maps 0 to 2 read as objects, and each value of each map is right by these, the maps are those of a sound store.
pub fn right_is_sound()
    ensures sound { (style : StyleOf) (image : Image) (nodes : NodeMap) (ways relations : ObjectMap)
        → ReadsObjects image nodes ways relations → AreRight style image nodes (objects_of nodes ways relations)
        → HasSoundMapsOf style (objects_of nodes ways relations) image }
    ensures ids { (style : StyleOf) (image : Image) (nodes : NodeMap) (ways relations : ObjectMap)
        → ReadsObjects image nodes ways relations → AreRight style image nodes (objects_of nodes ways relations)
        → HasIds (objects_of nodes ways relations) }
{}

/// And where they are, each value of each map is right by the objects that maps 0 to 2 read as.
pub fn sound_is_right()
    ensures right { (style : StyleOf) (image : Image) (objects : ObjectSet) (nodes : NodeMap) (ways relations : ObjectMap)
        → HasSoundMapsOf style objects image → HasIds objects → ReadsObjects image nodes ways relations
        → AreRight style image nodes (objects_of nodes ways relations) }
{}

/// A store means something where each of its chains is loaded, those that are to be empty are chains, and each page is in one of them or
/// free.
pub fn surveyed_means()
    ensures means { (pages : List (List ℕ)) (kept : Kept) → Keeps pages kept → IsCount (buckets_told pages)
        → AreLong kept.directories.items (buckets_told pages) → AreLoaded pages kept → AreChains pages kept → AreOwned pages kept
        → (own : Image) × (strings : ℕ → List ℕ) × IsState own.root strings pages × Spells own strings }
{}

/// And where it does each chain is loaded, and each page is in one of them or free, so no survey refuses it.
pub fn meaning_is_surveyed()
    ensures loaded { (pages : List (List ℕ)) (kept : Kept) (own : Image) (strings : ℕ → List ℕ) → Keeps pages kept
        → IsState own.root strings pages → Spells own strings → AreLoaded pages kept × AreOwned pages kept }
    ensures accepted { (pages : List (List ℕ)) (kept : Kept) (own : Image) (strings : ℕ → List ℕ) (at : ℕ) → Keeps pages kept
        → IsState own.root strings pages → Spells own strings → ¬ Surveys pages kept (Err (BadStore at)) }
{}
