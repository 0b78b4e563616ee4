//! The objects of a store are read, and each value of maps 0 to 2 is judged.
ghost use Rattle.store_check.specs.Objects.{FindsObjects};
ghost use Rattle.store_check.specs.Finds.{Finds};

use crate::Wrong;
use crate::held::Held;
use crate::judging_maps::judge_maps;
use crate::reading::Reading;
use dep_closure::reaches_nodes;
use outside::Disk;
use page_journal::StoreFault;
use std::alloc::Global;
use style_read::Style;

/// What reading maps 0 to 2 finds.
#[derive(Drop)]
pub enum Found {
    /// Each of their values is right, and this is kept of them.
    Objects(Held),
    /// The first value that is not right.
    Wrong(Wrong),
}

/// Reads maps 0 to 2, a bucket at a time.
pub(crate) fn read_objects<D: Disk>(
    alloc: Global,
    reading: &mut Reading<'_, '_, D>,
    style: &Style,
) -> Result<Found, StoreFault>
    ensures found { Finds reading.old reading.new result (λ rest found.
        FindsObjects style.now rest found) }
{
    let mut held = Held::new(alloc, reading.bucket_count());
    match judge_maps(alloc, reading, reaches_nodes(style), &mut held) {
        Ok(None) => Ok(Found::Objects(held)),
        Ok(Some(wrong)) => Ok(Found::Wrong(wrong)),
        Err(fault) => Err(fault),
    }
}
