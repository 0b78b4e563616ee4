//! A store of either kind is opened on a disk that stays with its owner.
ghost use Rattle.std.specs.Prelude.{◌≡◌, List, ℕ, IfOk};
ghost use Rattle.std.specs.Result.{result_err};
ghost use Rattle.outside.specs.Bytes.{IsTold};
ghost use Rattle.outside.specs.Disk.{Tells};
ghost use Rattle.bucket_store.specs.Image.{HoldsImage, Image};
ghost use Rattle.bucket_store.specs.Opening.{Fits, opened_root};
ghost use Rattle.update_flow.specs.AtRest.{IsAt, IsAtEither, Opens, OpensAs};
ghost use Rattle.update_flow.specs.Either.{AreFieldsForEither, FoundEither, OpensEither, OpensSoundEither};
ghost use Rattle.update_flow.specs.Judged.{IsSoundImage};
ghost use Rattle.update_flow.specs.Opening.{FindsSoundly, HoldsState};
ghost use Rattle.update_flow.specs.Sound.{IsSound as IsSoundStore};
ghost use Rattle.update_flow.specs.State.{State};
ghost use Rattle.update_flow.specs.Stands.{StandsFor};

use crate::fault::store_fault;
use crate::fields::is_following;
use crate::follower_opening::with_tables;
use crate::opening::styled;
use crate::{Either, FlowFault};
use bucket_store::Resting;
use osm_base::Limits;
use outside::Disk;
use std::alloc::Global;

/// Opens the store on this disk, whether it follows another one or not: a refusal loses nothing. `Updater::over` or `Follower::over` goes on
/// from there.
pub fn open_either<D: Disk>(
    alloc: Global,
    disk: &mut D,
    limits: &Limits,
) -> Result<Either, FlowFault>
    // A disk that reads as a store of a state is opened as one.
    ensures reads { (bytes : List ℕ) (state : State) → Tells (D.view disk.old) bytes → StandsFor bytes state
        → OpensAs state (result_err result) (D.view disk.new) }
    ensures opens { (one other : State) → IsAtEither one other (D.view disk.old)
        → Opens one other (result_err result) (D.view disk.old) (D.view disk.new) }
    ensures found { IfOk result (λ found. IsTold (D.view disk.old).content → (state : State) → IsAt state (D.view disk.new)
        → FoundEither state (D.view disk.new) found) }
    ensures any { OpensEither (D.view disk.old) (D.view disk.new) result }

    // A sound store is found so, and refused for the disk and memory alone.
    ensures sound { (bytes : List ℕ) → Tells (D.view disk.old) bytes → IsSoundStore bytes → OpensSoundEither (D.view disk.new) result }
{
    match bucket_store::open(alloc, disk, limits) {
        Ok(found) => sorted(alloc, disk, limits, found),
        Err(fault) => Err(store_fault(fault)),
    }
}

/// Which kind of store it is of which this was read. `BadStore` comes with the root page where its fields are those of no store, or its style
/// is that of none.
fn sorted<D: Disk>(
    alloc: Global,
    disk: &mut D,
    limits: &Limits,
    found: Resting,
) -> Result<Either, FlowFault>
    ensures found { IfOk result (λ sorted. Fits found (D.view disk.old) → (state : State) → HoldsState state (D.view disk.old)
        → FoundEither state (D.view disk.new) sorted) }
    ensures fields { IfOk result (λ sorted. AreFieldsForEither sorted (opened_root found)) }
    ensures looks { FindsSoundly found (D.view disk.old) (D.view disk.new) result }
    ensures judged { (image : Image) → Fits found (D.view disk.old) → HoldsImage image (D.view disk.old) → IsSoundImage image
        → OpensSoundEither (D.view disk.new) result }
{
    let root = found.root();
    if is_following(root) {
        return match with_tables(alloc, disk, limits, found, root.changes) {
            Ok(base) => Ok(Either::Follows(base)),
            Err(fault) => Err(fault),
        };
    }
    match styled(alloc, disk, limits, found) {
        Ok(opened) => Ok(Either::Updates(opened)),
        Err(fault) => Err(fault),
    }
}
