//! A store that was opened is read whole, and judged.
ghost use Rattle.std.specs.Prelude.{◌≡◌, ◌==◌, ◌&&◌, ◌||◌, ◌≤◌, ◌<◌, List, ℕ, None, true, false, nat_le, IfOk, IsErrOf, OnOk};
ghost use Rattle.std.specs.FinMap as finite;
ghost use Rattle.std.specs.Result.{result_err};
ghost use Rattle.page_journal.specs.declared.fault.StoreFault.TheVariants.{BadStore};
ghost use Rattle.chain_store.specs.Chains.{first_of, kept_of, written_of};
ghost use Rattle.chain_store.specs.Store.{HasBytes, IsRefused};
ghost use Rattle.bucket_store.specs.Buckets.{bucket_count};
ghost use Rattle.bucket_store.specs.Calls.{IsBegun};
ghost use Rattle.bucket_store.specs.Image.{Has, Image};
ghost use Rattle.bucket_store.specs.Transaction.{IsOpenStore, chains_of};
ghost use Rattle.tile_cover.specs.Runs.{IsTileSet};
ghost use Rattle.value_bytes.specs.Forms.{IsNoValue};
ghost use Rattle.due_tiles.specs.Spelling.{set_bytes};
ghost use Rattle.store_check.specs.BadPage.{AreChains, AreLoaded, AreOwned, IsUnused};
ghost use Rattle.store_check.specs.Wrong.{AllRight};
ghost use Rattle.update_flow.specs.Judged.{AreEmptyBelow, IsEmptyAt, IsEmptyText, IsOfToday, IsWrongAt, Judges, JudgesImage, MayJudge, OnlyReads, TellsToday, fault_unless, rooted};
ghost use Rattle.update_flow.specs.Due.{Tiles};
ghost use Rattle.update_flow.specs.Roots.{is_blank, is_imported};
ghost use Rattle.update_flow.specs.Stands.{AreDue};
ghost use Rattle.update_flow.specs.Within.{IsGoing, RunsWithin};
ghost use Rattle.update_flow.specs.declared.fault.FlowFault.TheVariants.{Store};
ghost use Rattle.update_flow.specs.declared.fault.TheConstants.{LAST_CHANGE};
ghost use Rattle.update_flow.specs.declared.fields.TheConstants.{DUE_TEXT, STYLE_TEXT};

use crate::fault::store_fault;
use crate::style_text::load_style;
use crate::{DUE_TEXT, FlowFault, LAST_CHANGE, STYLE_TEXT};
use bucket_store::Buckets;
use chain_store::Root;
use due_tiles::{DueFault, decode};
use outside::Disk;
use page_journal::StoreFault;
use std::alloc::Global;
use store_check::{first_wrong, survey};
use style_read::Style;

/// Judges the store under these buckets, of which nothing was read yet. `BadStore` comes with the page that is blamed first.
pub(crate) fn judge<D: Disk>(alloc: Global, buckets: &mut Buckets<'_, D>) -> Result<(), FlowFault>
    requires begun { IsBegun buckets.old }
    requires ready { IsGoing buckets.old }
    ensures exact { (pages : List (List ℕ)) → IsOpenStore pages buckets.old → TellsToday pages
        → Judges pages (kept_of (chains_of buckets.old)) (result_err result) }
    ensures runs { RunsWithin buckets.old buckets.new (result_err result) }
{
    match survey(alloc, buckets) {
        Ok(()) => judge_surveyed(alloc, buckets),
        Err(fault) => Err(store_fault(fault)),
    }
}

/// Judges a store of which each page is in a chain.
fn judge_surveyed<D: Disk>(alloc: Global, buckets: &mut Buckets<'_, D>) -> Result<(), FlowFault>
    requires begun { IsBegun buckets.old }
    requires ready { IsGoing buckets.old }
    ensures exact { (pages : List (List ℕ)) → IsOpenStore pages buckets.old → TellsToday pages
        → AreLoaded pages (kept_of (chains_of buckets.old)) → AreOwned pages (kept_of (chains_of buckets.old))
        → Judges pages (kept_of (chains_of buckets.old)) (result_err result) }
    ensures runs { RunsWithin buckets.old buckets.new (result_err result) }
{
    match are_empty(buckets) {
        Ok(empty) => {
            buckets.begin();
            judge_meant(alloc, buckets, empty)
        }
        Err(fault) => Err(fault),
    }
}

/// Judges a store that means something. Whether the texts that are to be empty are is known.
fn judge_meant<D: Disk>(
    alloc: Global,
    buckets: &mut Buckets<'_, D>,
    empty: bool,
) -> Result<(), FlowFault>
    requires may { MayJudge buckets.old }
    ensures exact { (image : Image) → Has image image buckets.old → AreEmptyBelow 8 empty image → IsOfToday image
        → JudgesImage (kept_of (chains_of buckets.old)) image (result_err result) }
    ensures runs { RunsWithin buckets.old buckets.new (result_err result) }
{
    if has_buckets(buckets) {
        return judge_import(alloc, buckets, empty);
    }
    judge_blank(buckets, empty)
}

/// Whether the store has buckets.
fn has_buckets<D: Disk>(buckets: &Buckets<'_, D>) -> bool
    ensures some { result ≡ true → 1 ≤ bucket_count (chains_of buckets.now) }
    ensures none { result ≡ false → bucket_count (chains_of buckets.now) ≡ 0 }
{
    buckets.root().buckets != 0
}

/// Judges a store that was only made.
fn judge_blank<D: Disk>(buckets: &mut Buckets<'_, D>, empty: bool) -> Result<(), FlowFault>
    requires ready { IsGoing buckets.old }
    ensures exact { (image : Image) → Has image image buckets.old → AreEmptyBelow 8 empty image → is_blank image.root ≡ true
        → JudgesImage (kept_of (chains_of buckets.old)) image (result_err result) }
    ensures runs { RunsWithin buckets.old buckets.new (result_err result) }
{
    let root = buckets.root();
    let styleless = match is_empty(buckets, STYLE_TEXT) {
        Ok(styleless) => styleless,
        Err(fault) => return Err(fault),
    };
    let dueless = match is_empty(buckets, DUE_TEXT) {
        Ok(dueless) => dueless,
        Err(fault) => return Err(fault),
    };
    unless_bad(is_whole(empty, styleless, dueless, root))
}

/// Whether a store that was only made has no text, and no more changes than can be counted.
fn is_whole(empty: bool, styleless: bool, dueless: bool, root: Root) -> bool
    ensures { result ≡ (empty && (styleless && (dueless && nat_le root.changes LAST_CHANGE))) }
{
    empty && styleless && dueless && root.changes <= LAST_CHANGE
}

/// The root page is blamed unless this is so.
fn unless_bad(good: bool) -> Result<(), FlowFault>
    ensures { result_err result ≡ fault_unless good }
{
    if good {
        Ok(())
    } else {
        Err(FlowFault::Store(StoreFault::BadStore { page: 1 }))
    }
}

/// Judges an imported store.
fn judge_import<D: Disk>(
    alloc: Global,
    buckets: &mut Buckets<'_, D>,
    empty: bool,
) -> Result<(), FlowFault>
    requires may { MayJudge buckets.old }
    requires some { 1 ≤ bucket_count (chains_of buckets.old) }
    ensures exact { (image : Image) → Has image image buckets.old → AreEmptyBelow 8 empty image → is_imported image.root ≡ true
        → JudgesImage (kept_of (chains_of buckets.old)) image (result_err result) }
    ensures runs { RunsWithin buckets.old buckets.new (result_err result) }
{
    let style = match load_style(alloc, buckets) {
        Ok(style) => style,
        Err(fault) => return Err(fault),
    };
    match judge_values(alloc, buckets, &style) {
        Ok(()) => {}
        Err(fault) => return Err(fault),
    }
    match judge_due(alloc, buckets) {
        Ok(()) => {}
        Err(fault) => return Err(fault),
    }
    unless_bad(empty)
}

/// Judges the values of an imported store. `BadStore` comes with the page where the bucket of the first wrong one begins.
fn judge_values<D: Disk>(
    alloc: Global,
    buckets: &mut Buckets<'_, D>,
    style: &Style,
) -> Result<(), FlowFault>
    requires may { MayJudge buckets.old }
    requires some { 1 ≤ bucket_count (chains_of buckets.old) }
    ensures right { OnOk result ((image : Image) → Has image image buckets.old → AllRight style.now image) }
    ensures wrong { (at : ℕ) → IsErrOf result (Store (BadStore at)) → (image : Image) → Has image image buckets.old
        → IsWrongAt style.now (kept_of (chains_of buckets.old)) image at }
    ensures reads { OnlyReads buckets.old buckets.new result }
{
    match first_wrong(alloc, buckets, style) {
        Ok(None) => Ok(()),
        Ok(Some(wrong)) => Err(FlowFault::Store(StoreFault::BadStore {
            page: buckets.page_of(wrong.map, wrong.key),
        })),
        Err(fault) => Err(store_fault(fault)),
    }
}

/// Judges the due tiles. `BadStore` comes with the root page where their text spells none.
fn judge_due<D: Disk>(alloc: Global, buckets: &mut Buckets<'_, D>) -> Result<(), FlowFault>
    requires ready { IsGoing buckets.old }
    ensures due { OnOk result ((image : Image) → Has image image buckets.old → (due : Tiles) × AreDue (image.texts DUE_TEXT) due) }
    ensures none { (at : ℕ) → IsErrOf result (Store (BadStore at)) → (image : Image) → Has image image buckets.old
        → (at ≡ 1) × IsNoValue set_bytes IsTileSet (image.texts DUE_TEXT) }
    ensures reads { OnlyReads buckets.old buckets.new result }
{
    let bytes = match buckets.load(DUE_TEXT) {
        Ok(bytes) => bytes,
        Err(fault) => return Err(store_fault(fault)),
    };
    match decode(alloc, bytes.as_slice()) {
        Ok(_) => Ok(()),
        Err(DueFault::NotSpelled) => Err(FlowFault::Store(StoreFault::BadStore { page: 1 })),
        Err(DueFault::OutOfMemory) => Err(FlowFault::OutOfMemory),
    }
}

/// Whether the texts that are to be empty are. `BadStore` comes with the root page where one of them is no chain.
fn are_empty<D: Disk>(buckets: &mut Buckets<'_, D>) -> Result<bool, FlowFault>
    requires ready { IsGoing buckets.old }
    ensures tells { IfOk result (λ empty. (rest : Image) → Has rest rest buckets.old → AreEmptyBelow 8 empty rest) }
    ensures chains { OnOk result ((pages : List (List ℕ)) → IsOpenStore pages buckets.old
        → written_of (chains_of buckets.old) ≡ finite.empty → AreChains pages (kept_of (chains_of buckets.old))) }
    ensures refused { (at : ℕ) → IsErrOf result (Store (BadStore at)) → (pages : List (List ℕ)) → IsOpenStore pages buckets.old
        → (at ≡ 1) × ((n refused : ℕ) × IsUnused n × IsRefused pages n (first_of (chains_of buckets.old) n) refused) }
    ensures open { (pages : List (List ℕ)) → IsOpenStore pages buckets.old → IsOpenStore pages buckets.new }
    ensures reads { OnlyReads buckets.old buckets.new result }
{
    let mut empty = true;
    let mut n = 0;
    while n < 8 {
        match is_unused_empty(buckets, n) {
            Ok(one) => empty = are_both(empty, one),
            Err(fault) => return Err(fault),
        }
        n += 1;
    }
    Ok(empty)
}

/// Whether both are so.
fn are_both(one: bool, other: bool) -> bool
    ensures { result ≡ (one && other) }
{
    one && other
}

/// Whether this is the text of the style, or of the due tiles.
fn is_used(n: u32) -> bool
    ensures { result ≡ ((n == STYLE_TEXT) || (n == DUE_TEXT)) }
{
    n == STYLE_TEXT || n == DUE_TEXT
}

/// Whether a text is empty, or need not be. `BadStore` comes with the root page where it is to be and is no chain.
fn is_unused_empty<D: Disk>(buckets: &mut Buckets<'_, D>, n: u32) -> Result<bool, FlowFault>
    requires text { n < 8 }
    requires ready { IsGoing buckets.old }
    ensures tells { IfOk result (λ empty. (rest : Image) → Has rest rest buckets.old → IsEmptyAt n empty rest) }
    ensures chain { OnOk result ((pages : List (List ℕ)) → IsOpenStore pages buckets.old → written_of (chains_of buckets.old) ≡ finite.empty
        → IsUnused n → (bytes : List ℕ) × HasBytes pages n (first_of (chains_of buckets.old) n) bytes) }
    ensures refused { (at : ℕ) → IsErrOf result (Store (BadStore at)) → (pages : List (List ℕ)) → IsOpenStore pages buckets.old
        → (at ≡ 1) × ((k refused : ℕ) × IsUnused k × IsRefused pages k (first_of (chains_of buckets.old) k) refused) }
    ensures open { (pages : List (List ℕ)) → IsOpenStore pages buckets.old → IsOpenStore pages buckets.new }
    ensures reads { OnlyReads buckets.old buckets.new result }
{
    if is_used(n) {
        return Ok(true);
    }
    match is_empty(buckets, n) {
        Ok(empty) => Ok(empty),
        Err(fault) => Err(at_root(fault)),
    }
}

/// Whether a text is empty.
fn is_empty<D: Disk>(buckets: &mut Buckets<'_, D>, n: u32) -> Result<bool, FlowFault>
    requires text { n < 8 }
    requires ready { IsGoing buckets.old }
    ensures tells { IfOk result (λ empty. (rest : Image) → Has rest rest buckets.old → IsEmptyText empty (rest.texts n)) }
    ensures chain { OnOk result ((pages : List (List ℕ)) → IsOpenStore pages buckets.old → written_of (chains_of buckets.old) ≡ finite.empty
        → (bytes : List ℕ) × HasBytes pages n (first_of (chains_of buckets.old) n) bytes) }
    ensures refused { (at : ℕ) → IsErrOf result (Store (BadStore at)) → (pages : List (List ℕ)) → IsOpenStore pages buckets.old
        → IsRefused pages n (first_of (chains_of buckets.old) n) at }
    ensures open { (pages : List (List ℕ)) → IsOpenStore pages buckets.old → IsOpenStore pages buckets.new }
    ensures reads { OnlyReads buckets.old buckets.new result }
{
    match buckets.load(n) {
        Ok(bytes) => Ok(has_none(bytes.as_slice())),
        Err(fault) => Err(store_fault(fault)),
    }
}

/// Whether there are no bytes.
fn has_none(bytes: &[u8]) -> bool
    ensures { IsEmptyText result bytes.now }
{
    bytes.len() == 0
}

/// A refusal at a page is one at the root page.
fn at_root(fault: FlowFault) -> FlowFault
    ensures { result ≡ rooted fault }
{
    match fault {
        FlowFault::Store(StoreFault::BadStore { page: _ }) => {
            FlowFault::Store(StoreFault::BadStore { page: 1 })
        }
        fault => fault,
    }
}
