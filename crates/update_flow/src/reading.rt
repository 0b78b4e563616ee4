//! The rows of a store are read, of all tables or of one.
ghost use Rattle.std.specs.Prelude.{◌≡◌, ◌≤◌, IfOk};
ghost use Rattle.std.specs.Result.{result_err};
ghost use Rattle.osm_base.specs.map.Spots.{TableMap};
ghost use Rattle.row_rules.specs.Row.{tables};
ghost use Rattle.bucket_store.specs.Image.{Has, Image};
ghost use Rattle.row_store.specs.Tables.{HoldsTables};
ghost use Rattle.update_flow.specs.Sound.{IsSoundImport};
ghost use Rattle.update_flow.specs.Stands.{IsImported};
ghost use Rattle.update_flow.specs.State.{Holding};
ghost use Rattle.update_flow.specs.Within.{IsGoing, IsSound, RunsWithin, wanted_of};

use crate::FlowFault;
use crate::fault::store_fault;
use bucket_store::Buckets;
use osm_base::Tables;
use outside::Disk;
use page_journal::StoreFault;
use row_store::{load, load_sorted as load_in_order};
use std::alloc::Global;
use store_maps::SortedRows;
use style_read::Style;

/// The rows of one table of a store with this style, or of all. `BadStore` comes with the root page where there are no buckets.
pub(crate) fn load_rows<D: Disk>(
    alloc: Global,
    buckets: &mut Buckets<'_, D>,
    style: &Style,
    wanted: Option<u32>,
) -> Result<Tables, FlowFault>
    requires ready { IsGoing buckets.old }
    ensures tables { IfOk result (λ found. (rest now : Image) (held : Holding) → Has rest now buckets.old → IsImported held now → held.style ≡ style.now
        → found ≡ wanted_of wanted (tables held.style held.objects)) }
    ensures sound { (rest now : Image) (held : Holding) → Has rest now buckets.old → IsImported held now → held.style ≡ style.now
        → IsSound (result_err result) }
    ensures trusted { (rest now : Image) (held : Holding) → Has rest now buckets.old → IsSoundImport held now → held.style ≡ style.now
        → IsSound (result_err result) }
    ensures follower { IfOk result (λ found. (rest now : Image) (all : TableMap) → Has rest now buckets.old → HoldsTables style.now.tables now.maps all
        → found ≡ wanted_of wanted all) }
    ensures followed { (rest now : Image) (all : TableMap) → Has rest now buckets.old → HoldsTables style.now.tables now.maps all
        → 1 ≤ now.root.buckets → IsSound (result_err result) }
    ensures runs { RunsWithin buckets.old buckets.new (result_err result) }
{
    if buckets.root().buckets == 0 {
        return Err(FlowFault::Store(StoreFault::BadStore { page: 1 }));
    }
    let mut tables = Tables::new(alloc);
    match load(alloc, buckets, style, wanted, &mut tables) {
        Ok(()) => Ok(tables),
        Err(fault) => Err(store_fault(fault)),
    }
}

/// The rows of all tables of a store with this style, in the order of their spots. `BadStore` comes as from `load_rows`.
pub(crate) fn load_sorted<D: Disk>(
    alloc: Global,
    buckets: &mut Buckets<'_, D>,
    style: &Style,
) -> Result<SortedRows, FlowFault>
    requires ready { IsGoing buckets.old }
    ensures tables { IfOk result (λ found. (rest now : Image) (held : Holding) → Has rest now buckets.old → IsImported held now → held.style ≡ style.now
        → found ≡ tables held.style held.objects) }
    ensures sound { (rest now : Image) (held : Holding) → Has rest now buckets.old → IsImported held now → held.style ≡ style.now
        → IsSound (result_err result) }
    ensures trusted { (rest now : Image) (held : Holding) → Has rest now buckets.old → IsSoundImport held now → held.style ≡ style.now
        → IsSound (result_err result) }
    ensures runs { RunsWithin buckets.old buckets.new (result_err result) }
{
    if buckets.root().buckets == 0 {
        return Err(FlowFault::Store(StoreFault::BadStore { page: 1 }));
    }
    match load_in_order(alloc, buckets, style, None) {
        Ok(rows) => Ok(rows),
        Err(fault) => Err(store_fault(fault)),
    }
}
