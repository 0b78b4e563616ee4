//! A store is opened, and all of it is read: whether it is sound.
ghost use Rattle.std.specs.Prelude.{◌≡◌, List, ℕ, false, IfErr, IfOk, IfSome, IsErrOf};
ghost use Rattle.std.specs.Result.{result_err};
ghost use Rattle.outside.specs.Bytes.{IsTold};
ghost use Rattle.outside.specs.Disk.{Stays, Tells};
ghost use Rattle.page_journal.specs.declared.fault.StoreFault.TheVariants.{BadStore};
ghost use Rattle.chain_store.specs.Directories.{IsCount};
ghost use Rattle.bucket_store.specs.Image.{HoldsImage, Image};
ghost use Rattle.bucket_store.specs.Opening.{Fits, opened_root};
ghost use Rattle.update_flow.specs.AtRest.{HasFlowCause, IsAt, IsAtEither, Opens, OpensAs};
ghost use Rattle.update_flow.specs.BadPage.{IsBadPage};
ghost use Rattle.update_flow.specs.Judged.{IsAsOpened, Judges};
ghost use Rattle.update_flow.specs.Opening.{FoundIn, OpensAny, as_found};
ghost use Rattle.update_flow.specs.Refusals.{MayFind};
ghost use Rattle.update_flow.specs.Roots.{AreFieldsOf};
ghost use Rattle.update_flow.specs.Sound.{IsSound};
ghost use Rattle.update_flow.specs.Stands.{StandsFor};
ghost use Rattle.update_flow.specs.State.{State};
ghost use Rattle.update_flow.specs.declared.fault.FlowFault.TheVariants.{Store};

use crate::judging::judge;
use crate::{FlowFault, Opened, open};
use bucket_store::Buckets;
use osm_base::Limits;
use outside::Disk;
use std::alloc::Global;

/// Opens the store on this disk as `open` does, and reads all of it: whether it is sound. `BadStore` comes with the page that is blamed
/// first. An old store is only opened, and so is that of a follower, which is `None`.
pub fn check<D: Disk>(
    alloc: Global,
    disk: &mut D,
    limits: &Limits,
) -> Result<Option<Opened>, FlowFault>
    // As `open` has them.
    ensures reads { (bytes : List ℕ) (state : State) → Tells (D.view disk.old) bytes → StandsFor bytes state
        → OpensAs state (result_err result) (D.view disk.new) }
    ensures opens { (one other : State) → IsAtEither one other (D.view disk.old)
        → Opens one other (result_err result) (D.view disk.old) (D.view disk.new) }
    ensures found { IfOk result (λ found. IsTold (D.view disk.old).content → (state : State) → IsAt state (D.view disk.new)
        → FoundIn state (D.view disk.new) found) }
    ensures any { OpensAny (D.view disk.old) (D.view disk.new) result }

    // It finds a store sound just where it is, and else tells a page by the rules.
    ensures sound { IfOk result (λ found. IfSome found (λ opened. opened.outdated ≡ false → (bytes : List ℕ) → Tells (D.view disk.old) bytes
        → IsSound bytes)) }
    ensures bad { (page : ℕ) → IsErrOf result (Store (BadStore page)) → (bytes : List ℕ) → Tells (D.view disk.old) bytes
        → (¬ IsSound bytes) × IsBadPage bytes page }
{
    let found = match open(alloc, disk, limits) {
        Ok(found) => found,
        Err(fault) => return Err(fault),
    };
    let Some(opened) = found else {
        return Ok(None);
    };
    let outdated = opened.outdated;
    if outdated {
        return Ok(Some(opened));
    }
    some_of(survey_whole(alloc, disk, limits, opened))
}

/// The store that was found, if one was.
fn some_of(answer: Result<Opened, FlowFault>) -> Result<Option<Opened>, FlowFault>
    ensures { result ≡ as_found answer }
{
    match answer {
        Ok(opened) => Ok(Some(opened)),
        Err(fault) => Err(fault),
    }
}

/// Reads all of a store that was opened, and is no old one.
fn survey_whole<D: Disk>(
    alloc: Global,
    disk: &mut D,
    limits: &Limits,
    opened: Opened,
) -> Result<Opened, FlowFault>
    ensures exact { (fits : Fits opened.store (D.view disk.old)) → IsCount (opened_root opened.store).buckets
        → AreFieldsOf opened.style opened.outdated opened.changes (opened_root opened.store) → opened.outdated ≡ false
        → Judges fits.pages opened.store.kept (result_err result) }
    ensures same { IfOk result (λ now. IsAsOpened opened now) }
    ensures fits { IfOk result (λ now. (image : Image) → Fits opened.store (D.view disk.old) → HoldsImage image (D.view disk.old)
        → Fits now.store (D.view disk.new)) }
    ensures stays { Stays (D.view disk.old) (D.view disk.new) }
    ensures alone { IfErr result MayFind }
    ensures cause { HasFlowCause (result_err result) (D.view disk.old) (D.view disk.new) }
{
    let Opened {
        store,
        changes,
        style,
        outdated,
    } = opened;
    let mut buckets = Buckets::on(alloc, disk, limits, store);
    let judged = judge(alloc, &mut buckets);
    let mut kept = None;
    let _disk = buckets.hand_back(&mut kept);
    match judged {
        Ok(()) => {}
        Err(fault) => return Err(fault),
    }
    match kept {
        Some(store) => Ok(Opened {
            store,
            changes,
            style,
            outdated,
        }),
        None => unreachable!(),
    }
}
