//! A store is opened on a disk that stays with its owner.
ghost use Rattle.std.specs.Prelude.{◌≡◌, ◌≢◌, ◌≤◌, List, ℕ, true, false, IfOk, IfSome, IsErrOf, OnOk};
ghost use Rattle.std.specs.Result.{result_err};
ghost use Rattle.outside.specs.Bytes.{IsTold};
ghost use Rattle.outside.specs.Disk.{Tells};
ghost use Rattle.page_journal.specs.Pages.{gate};
ghost use Rattle.page_journal.specs.declared.layout.TheConstants.{OPEN};
ghost use Rattle.page_journal.specs.declared.fault.StoreFault.TheVariants.{BadStore};
ghost use Rattle.bucket_store.specs.Image.{HoldsImage, Image};
ghost use Rattle.bucket_store.specs.Opening.{Fits, FitsPages, opened_root};
ghost use Rattle.update_flow.specs.AtRest.{IsAt, IsAtEither, Opens, OpensAs};
ghost use Rattle.update_flow.specs.BadPage.{IsBadPage, IsBadStyle, IsBadWithin, root_told};
ghost use Rattle.update_flow.specs.Judged.{AreSound, IsReadOf};
ghost use Rattle.update_flow.specs.Sound.{IsSound as IsSoundStore};
ghost use Rattle.update_flow.specs.SoundTurns.{OpensSound, TellsStyle};
ghost use Rattle.update_flow.specs.State.{State, style_in, was_imported, was_old};
ghost use Rattle.update_flow.specs.Stands.{StandsFor};
ghost use Rattle.update_flow.specs.Opening.{AreFieldsFor, Finds, FindsSoundly, Found, FoundIn, HoldsState, IsStyled, OpensAny};
ghost use Rattle.update_flow.specs.OpeningReads.{ReadsToOpen};
ghost use Rattle.update_flow.specs.Roots.{AreFieldsOf, is_following, is_old};
ghost use Rattle.update_flow.specs.Within.{IsSound};
ghost use Rattle.update_flow.specs.declared.fault.FlowFault.TheVariants.{Store};
ghost use Rattle.update_flow.specs.declared.fault.TheConstants.{LAST_CHANGE};

use crate::fault::store_fault;
use crate::fields::{is_blank, is_following, is_imported, is_old};
use crate::style_text::load_style;
use crate::{FlowFault, Opened};
use bucket_store::{Buckets, Resting};
use dep_closure::reaches_nodes;
use osm_base::Limits;
use outside::Disk;
use page_journal::StoreFault;
use std::alloc::Global;

/// Opens the store on this disk, which stays with its owner: a refusal loses nothing. `Updater::over` goes on from there. `None`: it is that
/// of a follower.
pub fn open<D: Disk>(
    alloc: Global,
    disk: &mut D,
    limits: &Limits,
) -> Result<Option<Opened>, FlowFault>
    // A disk that reads as a store of a state is opened as one.
    ensures reads { (bytes : List ℕ) (state : State) → Tells (D.view disk.old) bytes → StandsFor bytes state
        → OpensAs state (result_err result) (D.view disk.new) }
    ensures opens { (one other : State) → IsAtEither one other (D.view disk.old)
        → Opens one other (result_err result) (D.view disk.old) (D.view disk.new) }
    ensures found { IfOk result (λ found. IsTold (D.view disk.old).content → (state : State) → IsAt state (D.view disk.new)
        → FoundIn state (D.view disk.new) found) }
    ensures any { OpensAny (D.view disk.old) (D.view disk.new) result }

    // A sound store is found so, and refused for the disk and memory alone.
    ensures sound { (bytes : List ℕ) → Tells (D.view disk.old) bytes → IsSoundStore bytes → OpensSound (D.view disk.new) result }

    // It reads what it needs, each page once.
    ensures once { OnOk result ((bytes : List ℕ) (state : State) → Tells (D.view disk.old) bytes → StandsFor bytes state → gate bytes ≢ OPEN
        → ReadsToOpen bytes (D.view disk.old) (D.view disk.new)) }

    // Whatever it was read of: it is so there, or refused at the page that is blamed first.
    ensures fits { IfOk result (λ found. IfSome found (λ opened. (bytes : List ℕ) → Tells (D.view disk.old) bytes
        → IsReadOf bytes opened (D.view disk.new))) }
    ensures bad { (page : ℕ) → IsErrOf result (Store (BadStore page)) → (bytes : List ℕ) → Tells (D.view disk.old) bytes
        → (¬ IsSoundStore bytes) × IsBadPage bytes page }
{
    match bucket_store::open(alloc, disk, limits) {
        Ok(found) => judged(alloc, disk, limits, found),
        Err(fault) => Err(store_fault(fault)),
    }
}

/// What a store of which this was read is opened as. `BadStore` comes with the root page where its fields are those of no store, or its
/// style is that of none. `None`: it is that of a follower.
fn judged<D: Disk>(
    alloc: Global,
    disk: &mut D,
    limits: &Limits,
    found: Resting,
) -> Result<Option<Opened>, FlowFault>
    ensures found { IfOk result (λ judged. Fits found (D.view disk.old) → (state : State) → HoldsState state (D.view disk.old)
        → FoundIn state (D.view disk.new) judged) }
    ensures fields { IfOk result (λ judged. AreFieldsFor judged (opened_root found)) }
    ensures style { IfOk result (λ judged. IfSome judged (λ opened. (image : Image) → Fits found (D.view disk.old) → HoldsImage image (D.view disk.old)
        → TellsStyle opened.style image)) }
    ensures looks { FindsSoundly found (D.view disk.old) (D.view disk.new) result }
    ensures fits { IfOk result (λ judged. IfSome judged (λ opened. (fits : Fits found (D.view disk.old))
        → FitsPages fits.pages opened.store (D.view disk.new))) }
    ensures bad { (at : ℕ) → IsErrOf result (Store (BadStore at)) → (fits : Fits found (D.view disk.old))
        → (¬ AreSound fits.pages) × IsBadWithin fits.pages found.kept at }
{
    if is_following(found.root()) {
        return Ok(None);
    }
    match styled(alloc, disk, limits, found) {
        Ok(opened) => Ok(Some(opened)),
        Err(fault) => Err(fault),
    }
}

/// The state of a store of which this was read, and which is no follower's. `BadStore` comes with the root page where its fields are those
/// of no store, or its style is that of none.
pub(crate) fn styled<D: Disk>(
    alloc: Global,
    disk: &mut D,
    limits: &Limits,
    found: Resting,
) -> Result<Opened, FlowFault>
    requires own { is_following (opened_root found) ≡ false }
    ensures found { IfOk result (λ opened. Fits found (D.view disk.old) → (state : State) → HoldsState state (D.view disk.old)
        → Found state (D.view disk.new) opened) }
    ensures fields { IfOk result (λ opened. AreFieldsOf opened.style opened.outdated opened.changes (opened_root found)) }
    ensures style { IfOk result (λ opened. (image : Image) → Fits found (D.view disk.old) → HoldsImage image (D.view disk.old) → TellsStyle opened.style image) }
    ensures looks { FindsSoundly found (D.view disk.old) (D.view disk.new) result }
    ensures fits { IfOk result (λ opened. (fits : Fits found (D.view disk.old)) → FitsPages fits.pages opened.store (D.view disk.new)) }
    ensures bad { (at : ℕ) → IsErrOf result (Store (BadStore at)) → (fits : Fits found (D.view disk.old))
        → (¬ AreSound fits.pages) × IsBadWithin fits.pages found.kept at }
{
    let root = found.root();
    if is_blank(root) {
        return Ok(Opened {
            store: found,
            changes: 0,
            style: None,
            outdated: false,
        });
    }
    if is_old(root) {
        return with_style(alloc, disk, limits, found, root.changes, true);
    }
    if is_imported(root) {
        return with_style(alloc, disk, limits, found, root.changes, false);
    }
    Err(FlowFault::Store(StoreFault::BadStore { page: 1 }))
}

/// An imported store with so many changes, an old one or not, of which this was read. `BadStore` comes with the root page where its
/// style does not read, or where it reaches nodes and the store is an old one.
pub(crate) fn with_style<D: Disk>(
    alloc: Global,
    disk: &mut D,
    limits: &Limits,
    found: Resting,
    changes: u64,
    outdated: bool,
) -> Result<Opened, FlowFault>
    requires counted { changes ≤ LAST_CHANGE }
    ensures styled { IfOk result (IsStyled changes outdated) }
    ensures style { IfOk result (λ opened. (image : Image) → Fits found (D.view disk.old) → HoldsImage image (D.view disk.old) → TellsStyle opened.style image) }
    ensures found { IfOk result (λ opened. Fits found (D.view disk.old) → (state : State) → HoldsState state (D.view disk.old)
        → was_imported state ≡ true → (opened.style ≡ style_in state) × Fits opened.store (D.view disk.new)) }
    ensures sound { Fits found (D.view disk.old) → (state : State) → HoldsState state (D.view disk.old) → was_imported state ≡ true
        → was_old state ≡ outdated → IsSound (result_err result) }
    ensures finds { Finds found (D.view disk.old) (D.view disk.new) result }
    ensures fits { IfOk result (λ opened. (fits : Fits found (D.view disk.old)) → FitsPages fits.pages opened.store (D.view disk.new)) }
    ensures bad { (at : ℕ) → IsErrOf result (Store (BadStore at)) → (fits : Fits found (D.view disk.old))
        → (outdated ≡ true → is_old (root_told fits.pages) ≡ true) → IsBadStyle fits.pages found.kept at }
{
    let mut buckets = Buckets::on(alloc, disk, limits, found);
    let read = load_style(alloc, &mut buckets);
    let mut kept = None;
    let _disk = buckets.hand_back(&mut kept);
    let style = match read {
        Ok(style) => style,
        Err(fault) => return Err(fault),
    };
    if outdated && reaches_nodes(&style) {
        return Err(FlowFault::Store(StoreFault::BadStore { page: 1 }));
    }
    match kept {
        Some(store) => Ok(Opened {
            store,
            changes,
            style: Some(style),
            outdated,
        }),
        None => unreachable!(),
    }
}
