//! The maps of a store, as a change meets them.
ghost use Rattle.std.specs.Prelude.{◌≡◌, ℕ, true, false, List, IfOk, IfErr, IfSome, OnOk};
ghost use Rattle.std.specs.List.{AllByRecursion};
ghost use Rattle.std.specs.FinMap as finite;
ghost use Rattle.osm_base.specs.map.Known.{Question};
ghost use Rattle.osm_base.specs.values.Ids.{AreRisingIds};
ghost use Rattle.style_read.specs.Style.{StyleOf};
ghost use Rattle.object_fold.specs.Change.{IsOfKind};
ghost use Rattle.object_fold.specs.Listing.{listers};
ghost use Rattle.value_bytes.specs.declared.store_map.StoreMap.TheVariants as stored;
ghost use Rattle.store_maps.specs.Append.{MayKeep};
ghost use Rattle.store_maps.specs.Asked.{May, MayAnswer, MayKey, MayList, MayObject, MayRows};
ghost use Rattle.store_maps.specs.Filling.{HasNoLists, MayListAll, all_listed_on};
ghost use Rattle.store_maps.specs.Looks.{Looks, Sets};
ghost use Rattle.store_maps.specs.Maps.{Maps, object_in, rows_at, set_object, set_rows, way_or_relation_in};
ghost use Rattle.store_maps.specs.Named.{WaysAreThere, index_on, place_in};
ghost use Rattle.store_maps.specs.Step.{AreTold, relisted_to};

use osm_base::{Back, Entry, Ids, Key, Object, Place, TableRows};

/// How many nodes a block has, of which one list of ways is kept.
pub const BLOCK: u64 = 32;

/// The number that code and definitions share is that of the format.
pub fn shared_numbers()
    ensures block { BLOCK ≡ 32 }
{}

/// Eight finite maps, those of an open store within a transaction. After a refusal it may be spent: then nothing
/// more may be asked. Of a store whose bytes are not told no maps are known. What calls leave behind is said by
/// what was there before them: of any store from which calls have led to this one they lead to the next.
pub trait MapStore: Back {
    /// What is there beside the maps, and what a crash leaves: no call of this trait changes it.
    ghost Under: { Type 0 };

    /// The style of its rows.
    ghost style: { Self → StyleOf };

    /// It holds these maps, over this.
    ghost holds: { Self → Under → Maps → Type 0 };

    /// Calls of this trait have made the second of the first. Of what lies below they have only read.
    ghost looked: { Self → Self → Type 0 };

    /// All keys that it was asked are among these.
    ghost within: { May → Self → Type 0 };

    /// It may refuse so although it holds maps.
    ghost allowed: { Self.Refusal → Type 0 };

    /// The way or the relation of a key; of a node none.
    fn way_or_relation(&mut self, key: Key) -> Result<Option<Object>, Self::Refusal>
        requires { Self.spent self.old ≡ false }
        ensures found { IfOk result (λ found. (under : Under) (maps : Maps) → holds self.old under maps
            → found ≡ way_or_relation_in maps key.kind key.id) }
        ensures within { (may : May) → MayObject may key → within may self.old → within may self.new }
        ensures looks { Looks holds looked Self.spent Self.bears Self.faults allowed self.old self.new result };

    /// A key lists no longer what the old object lists, and from now on what the new one does.
    fn relist(
        &mut self,
        key: Key,
        old: &Option<Object>,
        new: &Option<Object>,
    ) -> Result<(), Self::Refusal>
        requires spent { Self.spent self.old ≡ false }
        requires proper { IfSome new.now (IsOfKind key.kind) }
        ensures holds { OnOk result ((under : Under) (maps : Maps) → holds self.old under maps → holds self.new under (relisted_to maps key old.now new.now)) }
        ensures within { (may : May) → MayList may key old.now → MayList may key new.now → within may self.old → within may self.new }
        ensures allowed { (under : Under) (maps : Maps) → holds self.old under maps → AreTold maps key old.now → IfErr result allowed }
        ensures sets { Sets looked Self.spent Self.bears Self.faults self.old self.new result };

    /// What the objects of these entries list is listed by their keys from now on; before, nothing is listed.
    fn list_all(&mut self, entries: &[Entry]) -> Result<(), Self::Refusal>
        requires { Self.spent self.old ≡ false }
        ensures holds { OnOk result ((under : Under) (maps : Maps) → holds self.old under maps → HasNoLists maps → holds self.new under (all_listed_on maps entries.now)) }
        ensures within { (may : May) → MayListAll may entries.now → within may self.old → within may self.new }
        ensures allowed { (under : Under) (maps : Maps) → holds self.old under maps → IfErr result allowed }
        ensures sets { Sets looked Self.spent Self.bears Self.faults self.old self.new result };

    /// The object of a key is this one, or there is none.
    fn set(&mut self, key: Key, object: &Option<Object>) -> Result<(), Self::Refusal>
        requires spent { Self.spent self.old ≡ false }
        requires proper { IfSome object.now (IsOfKind key.kind) }
        ensures holds { OnOk result ((under : Under) (maps : Maps) → holds self.old under maps → holds self.new under (set_object maps key.kind key.id object.now)) }
        ensures within { (may : May) → MayObject may key → within may self.old → within may self.new }
        ensures allowed { (under : Under) (maps : Maps) → holds self.old under maps → IfErr result allowed }
        ensures sets { Sets looked Self.spent Self.bears Self.faults self.old self.new result };

    /// The rows of a key.
    fn rows(&mut self, key: Key) -> Result<Option<TableRows>, Self::Refusal>
        requires { Self.spent self.old ≡ false }
        ensures rows { IfOk result (λ rows. (under : Under) (maps : Maps) → holds self.old under maps → rows ≡ rows_at maps key.kind key.id) }
        ensures within { (may : May) → MayRows may key → within may self.old → within may self.new }
        ensures looks { Looks holds looked Self.spent Self.bears Self.faults allowed self.old self.new result };

    /// The rows of a key are these; where there are none, it has no value.
    fn set_rows(&mut self, key: Key, rows: &TableRows) -> Result<(), Self::Refusal>
        requires spent { Self.spent self.old ≡ false }
        requires kept { MayKeep (style self.old).tables rows.now }
        ensures holds { OnOk result ((under : Under) (maps : Maps) → holds self.old under maps → holds self.new under (set_rows maps key.kind key.id rows.now)) }
        ensures within { (may : May) → MayRows may key → within may self.old → within may self.new }
        ensures allowed { (under : Under) (maps : Maps) → holds self.old under maps → IfErr result allowed }
        ensures sets { Sets looked Self.spent Self.bears Self.faults self.old self.new result };

    /// The place of a node.
    fn place(&mut self, id: u64) -> Result<Option<Place>, Self::Refusal>
        requires { Self.spent self.old ≡ false }
        ensures place { IfOk result (λ place. (under : Under) (maps : Maps) → holds self.old under maps → place ≡ place_in (finite.get maps.nodes id)) }
        ensures within { (may : May) → MayKey may stored.Nodes id → within may self.old → within may self.new }
        ensures looks { Looks holds looked Self.spent Self.bears Self.faults allowed self.old self.new result };

    /// The object of a key; none of a node whose tags are not known.
    fn object(&mut self, key: Key) -> Result<Option<Object>, Self::Refusal>
        requires { Self.spent self.old ≡ false }
        ensures object { IfOk result (λ object. (under : Under) (maps : Maps) → holds self.old under maps → object ≡ object_in maps key.kind key.id) }
        ensures within { (may : May) → MayObject may key → within may self.old → within may self.new }
        ensures looks { Looks holds looked Self.spent Self.bears Self.faults allowed self.old self.new result };

    /// The rising ids of the relations that have a way as a member.
    fn along_way(&mut self, id: u64) -> Result<Ids, Self::Refusal>
        requires { Self.spent self.old ≡ false }
        ensures ids { IfOk result (λ ids. (under : Under) (maps : Maps) → holds self.old under maps → ids ≡ listers maps.relations_of_ways id) }
        ensures rising { IfOk result AreRisingIds }
        ensures within { (may : May) → MayKey may stored.RelationsOfWays id → within may self.old → within may self.new }
        ensures looks { Looks holds looked Self.spent Self.bears Self.faults allowed self.old self.new result };

    /// The rising ids of the relations that have a node as a member.
    fn around_node(&mut self, id: u64) -> Result<Ids, Self::Refusal>
        requires { Self.spent self.old ≡ false }
        ensures ids { IfOk result (λ ids. (under : Under) (maps : Maps) → holds self.old under maps → ids ≡ listers maps.relations_of_nodes id) }
        ensures rising { IfOk result AreRisingIds }
        ensures within { (may : May) → MayKey may stored.RelationsOfNodes id → within may self.old → within may self.new }
        ensures looks { Looks holds looked Self.spent Self.bears Self.faults allowed self.old self.new result };

    /// Where nothing is called, nothing is made.
    ghost looked_none: { (store : Self) → looked store store };

    /// The style stays.
    ghost same_style: { (old new : Self) → looked old new → style new ≡ style old };

    /// The index that it answers by is that of the maps.
    ghost tells: { (store : Self) (under : Under) (maps : Maps) → holds store under maps → Self.knows store (index_on maps) };

    /// To ask the index is such a call.
    ghost asked: { (first old new : Self) (questions : List Question) → looked first old → Self.asks old questions new → looked first new };

    /// For an answer it is asked no more than what this is made of.
    ghost asked_within: { (old new : Self) (questions : List Question) → Self.asks old questions new → (under : Under) (maps : Maps) → holds old under maps
        → (may : May) → AllByRecursion (MayAnswer may maps) questions → within may old → within may new };

    /// It keeps the maps.
    ghost asked_holds: { (old new : Self) (questions : List Question) → Self.asks old questions new → Self.spent new ≡ false
        → (under : Under) (maps : Maps) → holds old under maps → holds new under maps };

    /// A refusal to answer is one of this store.
    ghost asked_bears: { (first old new : Self) (questions : List Question) (refusal : Self.Refusal) → looked first old → Self.asks old questions new
        → Self.bears new (Self.faults old) refusal → Self.bears new (Self.faults first) refusal };

    /// It may refuse so although it holds maps, where the ways that it says list a node are there.
    ghost asked_allowed: { (old new : Self) (questions : List Question) → Self.spent old ≡ false → Self.asks old questions new
        → (under : Under) (maps : Maps) → holds old under maps → WaysAreThere maps
        → (refusal : Self.Refusal) → Self.bears new (Self.faults old) refusal → allowed refusal };
}
