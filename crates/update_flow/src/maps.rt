//! The maps of a store as they are kept in its buckets.
//!
//! On the path of the data it stands between the flow of changes, which speaks of a store's eight finite maps, and the typed
//! calls over buckets of bytes. `HoldsMaps` of the specs says which bytes are which maps, value by value; that a value set in
//! the bytes is set in the maps, and leaves all others, is proved of the two alone. `StoreTxn` is the `MapStore` over the
//! buckets of an open store, within a transaction: what lies at rest below it no call of it changes.

mod finding;
mod kept;
mod migrating;
mod setting;

pub(crate) use kept::StoreTxn;
pub(crate) use migrating::migrate_nodes;
