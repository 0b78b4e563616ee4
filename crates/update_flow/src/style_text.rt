//! The style of a store: its bytes are one of the store's texts.
ghost use Rattle.std.specs.Prelude.{◌≡◌, List, ℕ, Ok, IfErr, IfOk, IsErrOf, OnOk};
ghost use Rattle.std.specs.FinMap as finite;
ghost use Rattle.std.specs.Result.{result_err};
ghost use Rattle.page_journal.specs.declared.fault.StoreFault.TheVariants.{BadStore};
ghost use Rattle.style_read.specs.Reading.{reading};
ghost use Rattle.style_read.specs.Style.{StyleOf};
ghost use Rattle.bucket_store.specs.Image.{Has, Image};
ghost use Rattle.chain_store.specs.Chains.{disk_of, kept_of, written_of};
ghost use Rattle.bucket_store.specs.Transaction.{IsOpenStore, chains_of};
ghost use Rattle.update_flow.specs.Judged.{HasReadText, IsStyleless, LoadsStyle};
ghost use Rattle.update_flow.specs.OpeningReads.{ReadsStyle};
ghost use Rattle.update_flow.specs.Refusals.{MayFind};
ghost use Rattle.update_flow.specs.Within.{IsGoing, IsSound, RunsWithin, StoresText};
ghost use Rattle.update_flow.specs.declared.fault.FlowFault.TheVariants.{Store};
ghost use Rattle.update_flow.specs.declared.fields.TheConstants.{STYLE_TEXT};

use crate::fault::store_fault;
use crate::{FlowFault, STYLE_TEXT};
use bucket_store::Buckets;
use osm_base::Bytes;
use outside::Disk;
use page_journal::StoreFault;
use std::alloc::Global;
use style_read::{Style, StyleFault, read_style};

/// The style of an imported store. `BadStore` comes with the root page where its bytes do not read.
pub fn load_style<D: Disk>(alloc: Global, buckets: &mut Buckets<'_, D>) -> Result<Style, FlowFault>
    requires ready { IsGoing buckets.old }
    ensures style { IfOk result (λ style. (rest now : Image) → Has rest now buckets.old → reading (now.texts STYLE_TEXT) ≡ Ok style) }
    ensures sound { (rest now : Image) (style : StyleOf) → Has rest now buckets.old → reading (now.texts STYLE_TEXT) ≡ Ok style → IsSound (result_err result) }
    ensures alone { IfErr result MayFind }
    ensures reads { OnOk result ((rest now : Image) → Has rest now buckets.old
        → ReadsStyle (disk_of (chains_of buckets.old)) (disk_of (chains_of buckets.new))) }
    ensures runs { RunsWithin buckets.old buckets.new (result_err result) }

    // Which page is blamed where it is refused, of any store.
    ensures answers { (pages : List (List ℕ)) → IsOpenStore pages buckets.old → written_of (chains_of buckets.old) ≡ finite.empty
        → LoadsStyle pages (kept_of (chains_of buckets.old)) result }
    ensures unread { (at : ℕ) → IsErrOf result (Store (BadStore at)) → (image : Image) → Has image image buckets.old → IsStyleless image at }
    ensures looks { OnOk result (HasReadText buckets.old buckets.new) }
{
    let bytes = match buckets.load(STYLE_TEXT) {
        Ok(bytes) => bytes,
        Err(fault) => return Err(store_fault(fault)),
    };
    match read_style(alloc, bytes.as_slice()) {
        Ok(style) => Ok(style),
        Err(StyleFault::Bad { .. }) => Err(FlowFault::Store(StoreFault::BadStore { page: 1 })),
        Err(StyleFault::OutOfMemory) => Err(FlowFault::OutOfMemory),
    }
}

/// The bytes of the style.
pub(crate) fn load_style_bytes<D: Disk>(buckets: &mut Buckets<'_, D>) -> Result<Bytes, FlowFault>
    requires ready { IsGoing buckets.old }
    ensures bytes { IfOk result (λ bytes. (rest now : Image) → Has rest now buckets.old → bytes ≡ now.texts STYLE_TEXT) }
    ensures sound { (rest now : Image) → Has rest now buckets.old → IsSound (result_err result) }
    ensures runs { RunsWithin buckets.old buckets.new (result_err result) }
{
    match buckets.load(STYLE_TEXT) {
        Ok(bytes) => Ok(bytes),
        Err(fault) => Err(store_fault(fault)),
    }
}

/// These are the bytes of the style.
pub(crate) fn store_style<D: Disk>(
    alloc: Global,
    buckets: &mut Buckets<'_, D>,
    style_bytes: &[u8],
) -> Result<(), FlowFault>
    requires ready { IsGoing buckets.old }
    ensures stores { StoresText STYLE_TEXT style_bytes.now buckets.old buckets.new result }
{
    let bytes = match Vec::from_slice(alloc, style_bytes) {
        Ok(bytes) => Bytes::from_vec(bytes),
        Err(_) => return Err(FlowFault::OutOfMemory),
    };
    match buckets.store(STYLE_TEXT, bytes) {
        Ok(()) => Ok(()),
        Err(fault) => Err(store_fault(fault)),
    }
}
