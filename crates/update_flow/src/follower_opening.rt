//! A store is opened to follow another one, on a disk that stays with its owner.
ghost use Rattle.std.specs.Prelude.{◌≡◌, ◌≤◌, List, ℕ, None, Ok, is_some, true, IfOk};
ghost use Rattle.std.specs.Result.{result_err};
ghost use Rattle.outside.specs.Bytes.{IsTold};
ghost use Rattle.outside.specs.Disk.{Tells};
ghost use Rattle.bucket_store.specs.Opening.{Fits, opened_root};
ghost use Rattle.update_flow.specs.AtRest.{IsAt, IsAtEither, Opens, OpensAs};
ghost use Rattle.update_flow.specs.Follower.{AreFieldsForBase, FoundBase, FoundBaseIn, OpensBase, OpensSoundBase};
ghost use Rattle.update_flow.specs.Roots.{is_following, is_imported};
ghost use Rattle.update_flow.specs.Sound.{IsSound as IsSoundStore};
ghost use Rattle.update_flow.specs.State.{State};
ghost use Rattle.update_flow.specs.Stands.{StandsFor};
ghost use Rattle.update_flow.specs.Opening.{FindsSoundly, HoldsState};
ghost use Rattle.update_flow.specs.declared.fault.TheConstants.{LAST_CHANGE};

use crate::fault::store_fault;
use crate::fields::{is_blank, is_following, is_imported, is_old};
use crate::opening::with_style;
use crate::{Base, FlowFault, Opened};
use bucket_store::Resting;
use osm_base::Limits;
use outside::Disk;
use page_journal::StoreFault;
use std::alloc::Global;

/// Opens the store on this disk to follow another one: a refusal loses nothing. `Follower::over` goes on from there. `None`: it was imported,
/// and its style was not read.
pub fn open_follower<D: Disk>(
    alloc: Global,
    disk: &mut D,
    limits: &Limits,
) -> Result<Option<Base>, FlowFault>
    // A disk that reads as a store of a state is opened as one.
    ensures reads { (bytes : List ℕ) (state : State) → Tells (D.view disk.old) bytes → StandsFor bytes state
        → OpensAs state (result_err result) (D.view disk.new) }
    ensures opens { (one other : State) → IsAtEither one other (D.view disk.old)
        → Opens one other (result_err result) (D.view disk.old) (D.view disk.new) }
    ensures found { IfOk result (λ found. IsTold (D.view disk.old).content → (state : State) → IsAt state (D.view disk.new)
        → FoundBaseIn state (D.view disk.new) found) }
    ensures any { OpensBase (D.view disk.old) (D.view disk.new) result }

    // A sound store that was only made is found so; of an imported one that it is sound is not asked. Either is refused for the disk and
    // memory alone.
    ensures sound { (bytes : List ℕ) → Tells (D.view disk.old) bytes → IsSoundStore bytes → OpensSoundBase (D.view disk.new) result }
{
    match bucket_store::open(alloc, disk, limits) {
        Ok(found) => based(alloc, disk, limits, found),
        Err(fault) => Err(store_fault(fault)),
    }
}

/// What a store of which this was read is opened as. `BadStore` comes with the root page where its fields are those of no store, or its
/// style is that of none. `None`: it was imported.
fn based<D: Disk>(
    alloc: Global,
    disk: &mut D,
    limits: &Limits,
    found: Resting,
) -> Result<Option<Base>, FlowFault>
    ensures found { IfOk result (λ based. Fits found (D.view disk.old) → (state : State) → HoldsState state (D.view disk.old)
        → FoundBaseIn state (D.view disk.new) based) }
    ensures fields { IfOk result (λ based. AreFieldsForBase based (opened_root found)) }
    ensures looks { FindsSoundly found (D.view disk.old) (D.view disk.new) result }
    ensures taken { is_imported (opened_root found) ≡ true → result ≡ Ok None }
{
    let root = found.root();
    if is_blank(root) {
        return Ok(Some(Base {
            store: found,
            version: 0,
            style: None,
        }));
    }
    if is_following(root) {
        return match with_tables(alloc, disk, limits, found, root.changes) {
            Ok(base) => Ok(Some(base)),
            Err(fault) => Err(fault),
        };
    }
    if is_imported(root) {
        return Ok(None);
    }
    if is_old(root) {
        return Ok(None);
    }
    Err(FlowFault::Store(StoreFault::BadStore { page: 1 }))
}

/// A follower's store of this version, of which this was read. `BadStore` comes with the root page where its style does not read.
pub(crate) fn with_tables<D: Disk>(
    alloc: Global,
    disk: &mut D,
    limits: &Limits,
    found: Resting,
    version: u64,
) -> Result<Base, FlowFault>
    requires counted { version ≤ LAST_CHANGE }
    requires own { is_following (opened_root found) ≡ true }
    requires count { version ≡ (opened_root found).changes }
    ensures found { IfOk result (λ base. Fits found (D.view disk.old) → (state : State) → HoldsState state (D.view disk.old)
        → FoundBase state (D.view disk.new) base) }
    ensures styled { IfOk result (λ base. (is_some base.style ≡ true) × (base.version ≡ version)) }
    ensures looks { FindsSoundly found (D.view disk.old) (D.view disk.new) result }
{
    match with_style(alloc, disk, limits, found, version, false) {
        Ok(opened) => {
            let Opened {
                store,
                changes,
                style,
                outdated: _,
            } = opened;
            Ok(Base {
                store,
                version: changes,
                style,
            })
        }
        Err(fault) => Err(fault),
    }
}
