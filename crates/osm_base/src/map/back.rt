//! Who lists an object: the way back from a node or a way to what was built of it.
ghost use Rattle.std.specs.Prelude.{◌≡◌, ◌≤◌, ℕ, Bool, false, List, [], ◌∷◌, ◌++◌, IfOk, IfErr, OnOk};
ghost use Rattle.osm_base.specs.values.Ids.{AreRisingIds};
ghost use Rattle.osm_base.specs.map.Known.{Index, Question, WaysOfNode, RelationsOfNode, RelationsOfWay};

use crate::Ids;

/// An index of what lists nodes and ways, in memory or in a store. It counts its faults, and after a
/// refusal it may be spent: then nothing more may be asked.
pub trait Back {
    /// Why it may refuse to answer.
    type Refusal;

    /// This is who lists each object. Of bytes that are not told no index is known.
    ghost knows: { Self → Index → Type 0 };

    /// How many faults it has met.
    ghost faults: { Self → ℕ };

    /// It may not be asked any more.
    ghost spent: { Self → Bool };

    /// It may give this refusal to a call at whose entry it had met so many faults.
    ghost bears: { Self → ℕ → Self.Refusal → Type 0 };

    /// These questions, in this order and nothing beside them, have made the second of the first.
    ghost asks: { Self → List Question → Self → Type 0 };

    /// The rising ids of the ways that list a node.
    fn ways_of_node(&mut self, id: u64) -> Result<Ids, Self::Refusal>
        requires { spent self.old ≡ false }
        ensures ids { IfOk result (λ ids. (index : Index) → knows self.old index → ids ≡ index.ways_of_node id) }
        ensures rising { IfOk result AreRisingIds }
        ensures index { spent self.new ≡ false → (index : Index) → knows self.old index → knows self.new index }
        ensures spent { OnOk result (spent self.new ≡ false) }
        ensures faults { faults self.old ≤ faults self.new }
        ensures refused { IfErr result (bears self.new (faults self.old)) }
        ensures asked { asks self.old (WaysOfNode id ∷ []) self.new };

    /// The rising ids of the relations that have a node as a member.
    fn relations_of_node(&mut self, id: u64) -> Result<Ids, Self::Refusal>
        requires { spent self.old ≡ false }
        ensures ids { IfOk result (λ ids. (index : Index) → knows self.old index → ids ≡ index.relations_of_node id) }
        ensures rising { IfOk result AreRisingIds }
        ensures index { spent self.new ≡ false → (index : Index) → knows self.old index → knows self.new index }
        ensures spent { OnOk result (spent self.new ≡ false) }
        ensures faults { faults self.old ≤ faults self.new }
        ensures refused { IfErr result (bears self.new (faults self.old)) }
        ensures asked { asks self.old (RelationsOfNode id ∷ []) self.new };

    /// The rising ids of the relations that have a way as a member.
    fn relations_of_way(&mut self, id: u64) -> Result<Ids, Self::Refusal>
        requires { spent self.old ≡ false }
        ensures ids { IfOk result (λ ids. (index : Index) → knows self.old index → ids ≡ index.relations_of_way id) }
        ensures rising { IfOk result AreRisingIds }
        ensures index { spent self.new ≡ false → (index : Index) → knows self.old index → knows self.new index }
        ensures spent { OnOk result (spent self.new ≡ false) }
        ensures faults { faults self.old ≤ faults self.new }
        ensures refused { IfErr result (bears self.new (faults self.old)) }
        ensures asked { asks self.old (RelationsOfWay id ∷ []) self.new };

    /// What it may give after more faults it may give after fewer.
    ghost bears_fewer: { (back : Self) (fewer more : ℕ) (refusal : Self.Refusal) → fewer ≤ more → bears back more refusal → bears back fewer refusal };

    /// What is asked nothing stays as it is.
    ghost asks_none: { (back : Self) → asks back [] back };

    /// Asked once and then again, it was asked all of that.
    ghost asks_then: { (first second third : Self) (before after : List Question) → asks first before second → asks second after third → asks first (before ++ after) third };
}
