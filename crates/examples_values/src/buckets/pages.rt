//! Deeds that tell the pages of a store.
ghost use Rattle.std.specs.Prelude.{◌≡◌, ◌⊎◌, ◌<◌, false, IfSome, OnOk};
ghost use Rattle.bucket_store.specs.Buckets.{IsBucketChain, bucket_count};
ghost use Rattle.bucket_store.specs.Transaction.{chains_of, has_refused};

use crate::buckets::deeds::{none, push_blank};
use bucket_store::Buckets;
use doubles::MemDisk;
use example_table::number_in;
use page_journal::StoreFault;
use std::alloc::{AllocError, Global};

/// The pages of a chain, in their order.
pub fn pages_of(
    alloc: Global,
    buckets: &mut Buckets<'_, MemDisk>,
    text: &str,
) -> Result<String, StoreFault>
    requires { has_refused buckets.old ≡ false }
    ensures { OnOk result (has_refused buckets.new ≡ false) }
{
    let Some(n) = chain_of(text, buckets.root().buckets) else {
        return none(alloc);
    };
    match buckets.pages_of(n) {
        Ok(pages) => Ok(numbers_text(alloc, pages.as_slice())?),
        Err(fault) => Err(fault),
    }
}

/// The free pages, in their order.
pub fn free(alloc: Global, buckets: &mut Buckets<'_, MemDisk>) -> Result<String, StoreFault>
    requires { has_refused buckets.old ≡ false }
    ensures { OnOk result (has_refused buckets.new ≡ false) }
{
    match buckets.free_pages() {
        Ok(pages) => Ok(numbers_text(alloc, pages.as_slice())?),
        Err(fault) => Err(fault),
    }
}

/// How many home pages there are.
pub fn home(alloc: Global, buckets: &mut Buckets<'_, MemDisk>) -> Result<String, StoreFault>
    requires { has_refused buckets.old ≡ false }
    ensures { OnOk result (has_refused buckets.new ≡ false) }
{
    let pages = buckets.pages();
    Ok(format!(in alloc; "{pages}")?)
}

// The number of a chain that a store with so many buckets has.
fn chain_of(text: &str, buckets: u64) -> Option<u32>
    ensures { IfSome result (λ n. (n < 16) ⊎ IsBucketChain buckets n) }
{
    let n = u32::try_from(number_in(text)?).ok()?;
    if n < 16 {
        return Some(n);
    }
    let bucket = u64::from((n - 16) % 65536);
    if n < 524304 && bucket < buckets {
        return Some(n);
    }
    None
}

// Numbers with blanks between them.
fn numbers_text(alloc: Global, numbers: &[u64]) -> Result<String, AllocError> {
    let mut text = String::new(alloc);
    for number in numbers {
        push_blank(&mut text)?;
        write!(text, "{number}")?;
    }
    Ok(text)
}
