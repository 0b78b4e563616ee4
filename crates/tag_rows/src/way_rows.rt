//! The rows of the ways with a tag, while files are read.
ghost use Rattle.std.specs.Prelude.{◌≡◌, ℕ, [], None, false, cond, IfOk, OnOk, OnErr};
ghost use Rattle.std.specs.FinMap as map;
ghost use Rattle.std.specs.List.{AllByRecursion};
ghost use Rattle.std.specs.Ordering.{eq_by_cmp};
ghost use Rattle.std.specs.Str.{chars};
ghost use Rattle.osm_base.specs.values.Key.{IsId, way_key};
ghost use Rattle.osm_base.specs.map.Objects.{folded_all};
ghost use Rattle.osm_base.specs.values.Ids.{has};
ghost use Rattle.dep_closure.specs.Ways.{Leaves};
ghost use Rattle.tag_rows.specs.Lines.{lines_text};
ghost use Rattle.tag_rows.specs.WayRows.{AreRows, after_way, no_ways, row_known, some_row};

use crate::rows_by_id::RowsById;
use crate::trimmed_change::{TrimmedChange, trimmed_entry};
use crate::way_row::push_row;
use dep_closure::ways_due;
use object_fold::{Change, Keeper};
use osm_base::{Entry, Ids, Key, Kind, Lookup, OutOfMemory, TryCopy};
use placed_objects::{PlacedImport, PlacedObjects};
use std::alloc::Global;
use std::marker::Model;
use std::mem;

/// The row of each way that has the tag of the key and a line, and what can still matter for
/// them of the objects. After a change only the rows of the ways that it makes due are built again.
#[derive(Drop)]
pub struct WayRows<'k> {
    alloc: Global,
    key: &'k str,
    objects: PlacedObjects,
    rows: RowsById,
}

impl<'k> Model for WayRows<'k> {
    ghost use Rattle.std.specs.Str.{chars};
    ghost use Rattle.tag_rows.specs.WayRows.{WaysRead, ways_code, AreRows};

    ghost Value = { WaysRead };

    ghost coded = { ways_code };

    ghost view = { λ own. record { key = chars own.key.now; objects = own.objects } };

    ghost invariant = { λ own. AreRows (chars own.key.now) own.objects own.rows };
}

impl<'k> WayRows<'k> {
    /// No object yet.
    pub fn new(alloc: Global, key: &'k str) -> Self
        ensures start { result ≡ no_ways (chars key.now) }
    {
        Self {
            alloc,
            key,
            objects: PlacedObjects::new(alloc),
            rows: RowsById::new(alloc),
        }
    }

    /// What a file of changes is read into, for the key that is asked for.
    pub fn begin(&self) -> TrimmedChange<'k>
        ensures empty { result ≡ record { key = self.now.key; entries = [] } }
    {
        TrimmedChange::new(self.alloc, self.key)
    }

    /// Applies a change whole. After `Err` no row is left.
    pub fn apply(&mut self, change: Change) -> Result<(), OutOfMemory>
        ensures ok { OnOk result (self.new ≡ record { key = self.old.key; objects = folded_all self.old.objects change }) }
        ensures err { OnErr result (self.new ≡ no_ways self.old.key) }
    {
        let fresh = Self::new(self.alloc, self.key);
        let old = mem::replace(self, fresh);
        *self = old.renewed(change)?;
        Ok(())
    }

    /// The same with a change more.
    fn renewed(self, change: Change) -> Result<Self, OutOfMemory>
        ensures ok { IfOk result (λ new. new ≡ record { key = self.entry.key; objects = folded_all self.entry.objects change }) }
    {
        let Self {
            alloc,
            key,
            mut objects,
            mut rows,
            ..
        } = self;
        let due = fold_change(alloc, &mut objects, change)?;
        set_rows(alloc, key, &objects, due.as_slice(), &mut rows)?;
        Ok(Self {
            alloc,
            key,
            objects,
            rows,
        })
    }

    /// All rows, in order.
    pub fn text(&self) -> Result<Vec<u8>, OutOfMemory>
        ensures text { IfOk result (λ text. text.items ≡ lines_text self.now.key self.now.objects) }
    {
        self.rows.text()
    }
}

/// What is kept of the first file for the rows of the ways with a tag: each entry becomes an object at once.
#[derive(Drop)]
pub struct WayImport<'k> {
    alloc: Global,
    key: &'k str,
    objects: PlacedImport,
    /// The ids of the ways.
    ways: Vec<u64>,
}

impl<'k> Model for WayImport<'k> {
    ghost use Rattle.std.specs.Str.{chars};
    ghost use Rattle.tag_rows.specs.WayRows.{WaysRead, ways_code, HoldWays};

    ghost Value = { WaysRead };

    ghost coded = { ways_code };

    ghost view = { λ own. record { key = chars own.key.now; objects = own.objects } };

    ghost invariant = { λ own. HoldWays own.objects own.ways.items };
}

impl<'k> WayImport<'k> {
    /// No object yet.
    pub fn new(alloc: Global, key: &'k str) -> Self
        ensures start { result ≡ no_ways (chars key.now) }
    {
        WayImport {
            alloc,
            key,
            objects: PlacedImport::new(alloc),
            ways: Vec::new(alloc),
        }
    }

    /// The rows of the ways that were kept, for files of changes behind.
    pub fn into_rows(self) -> Result<WayRows<'k>, OutOfMemory>
        ensures same { IfOk result (λ rows. rows ≡ self.entry) }
    {
        let rows = self.rows()?;
        let Self {
            alloc,
            key,
            objects,
            ..
        } = self;
        Ok(WayRows {
            alloc,
            key,
            objects: objects.into_placed()?,
            rows,
        })
    }

    /// All rows of the ways that were kept, in order, where no change follows.
    pub fn into_text(self) -> Result<Vec<u8>, OutOfMemory>
        ensures text { IfOk result (λ text. text.items ≡ lines_text self.entry.key self.entry.objects) }
    {
        self.rows()?.text()
    }

    /// The row of each way that was kept.
    fn rows(&self) -> Result<RowsById, OutOfMemory>
        ensures rows { IfOk result (AreRows self.now.key self.now.objects) }
    {
        let mut rows = RowsById::new(self.alloc);
        set_rows(self.alloc, self.key, &self.objects, &self.ways, &mut rows)?;
        Ok(rows)
    }

    /// Takes the next entry, and leaves in it what is not kept.
    fn keep_from(&mut self, entry: &mut Entry) -> Result<(), OutOfMemory>
        ensures ok { OnOk result (self.new ≡ after_way self.old entry.old) }
    {
        let entry = trimmed_entry(self.alloc, self.key, entry)?;
        add_way(&entry, &mut self.ways)?;
        self.objects.apply(entry)?;
        Ok(())
    }
}

impl Keeper for WayImport<'_> {
    ghost takes = { λ _ _. Unit {0} };

    ghost after = { after_way };

    fn keep(&mut self, mut entry: Entry) -> Result<(), OutOfMemory> {
        self.keep_from(&mut entry)
    }

    fn keep_all(
        &mut self,
        last: Option<Key>,
        mut entries: Vec<Entry>,
    ) -> Result<Vec<Entry>, OutOfMemory> {
        for entry in entries.iter_mut() {
            self.keep_from(entry)?;
        }
        Ok(entries)
    }
}

/// Adds the id of an entry that makes a way.
fn add_way(entry: &Entry, ways: &mut Vec<u64>) -> Result<(), OutOfMemory>
    ensures ids { AllByRecursion IsId ways.old.items → AllByRecursion IsId ways.new.items }
    ensures more { (way : ℕ) → has ways.new.items way ≡ false → has ways.old.items way ≡ false }
    ensures added { OnOk result ((way : ℕ) → has ways.new.items way ≡ false → entry.now.key ≡ way_key way → entry.now.object ≡ None) }
{
    let key = entry.key;
    if key.kind == Kind::Way && entry.object.is_some() {
        ways.push(key.id)?;
    }
    Ok(())
}

/// Folds a change into objects, and answers the ways that it makes due.
fn fold_change(
    alloc: Global,
    objects: &mut PlacedObjects,
    change: Change,
) -> Result<Ids, OutOfMemory>
    ensures folded { OnOk result (objects.new ≡ folded_all objects.old change) }
    ensures ids { IfOk result (AllByRecursion IsId) }
    ensures others { IfOk result (λ due. (way : ℕ) → has due way ≡ false → Leaves change objects.old way) }
{
    let copy = change.copy(alloc)?;
    objects.fold(change)?;
    match ways_due(alloc, &copy, &mut objects.index()) {
        Ok(due) => Ok(due),
        Err(_) => Err(OutOfMemory),
    }
}

/// Builds the rows of these ways anew.
fn set_rows<L: Lookup>(
    alloc: Global,
    key: &str,
    objects: &L,
    due: &[u64],
    rows: &mut RowsById,
) -> Result<(), OutOfMemory>
    requires { AllByRecursion IsId due.now }
    ensures rows { OnOk result ((id : ℕ) → map.get rows.new id
        ≡ cond (has due.now id) (some_row (row_known (chars key.now) (L.known objects.now) id)) (map.get rows.old id)) }
{
    let mut scratch = String::new(alloc);
    for &id in due {
        scratch.clear();
        push_row(alloc, &mut scratch, objects, key, id)?;
        rows.set(id, scratch.as_bytes())?;
    }
    Ok(())
}
