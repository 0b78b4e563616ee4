//! One change of a map on the maps of a store, and the first import.
//!
//! It stands between the maps of a store and the flow of changes. `change_maps` sets what a change says, reads what the rows of
//! the pending keys are built of, builds these rows, and sets them; it tells how rows differ and which tiles that makes due. What
//! it leaves in the maps stands for the objects after the change with all their rows, as if they had been imported anew.
//! `import_maps` fills maps without a value: it builds all rows of what is in memory, and looks nothing up in the store.
#![tactic(auto)]

mod answers;
mod asks;
mod changing;
mod entries;
mod fault;
mod gathering;
mod importing;
mod lacking;
mod listers;
mod named;
mod new_objects;
mod pending_keys;
mod rebuilding;
mod row_lists;
mod turns;

pub use changing::change_maps;
pub use fault::StepFault;
pub use importing::import_maps;
