//! Versions of the tables that readers are shown while an updater changes them.
//!
//! It stands on the tables of `osm_base`, the boxes of `grid_index` and the queries of `map_query`, over the two copies of
//! `left_right`. A `Publisher` takes the deltas one by one and shows each at once
//! and whole. A `MapReader` waits for nobody; what it answers is over the first tables with deltas that were published,
//! which begin with all that it saw before and with all that it was told of.
//!
//! The history of the deltas that were published stands in no memory: what threads share is a word, the number of its deltas. A
//! `Front` is a beginning of it that was seen, and contracts see it as the tables that the history begins with and the deltas
//! behind them. Of two fronts of one history the shorter begins the longer, which `begins` tells by their lengths; that is how a
//! reader knows that what it is shown goes on from what it saw before.
#![tactic(auto)]

mod absorbing;
mod answers;
mod asking;
mod front;
mod held;
mod history;
mod looking;
mod making;
mod publisher;
mod reader;
mod reading;
mod rule;
mod shown;
mod told;

pub use answers::{Answer, Counted, LookRefused};
pub use asking::{Answers, Round, ask};
pub use held::HeldReader;
pub use looking::Reads;
pub use making::{MapReaders, versions};
pub use publisher::{PublishRefused, Publisher};
pub use reader::MapReader;
pub use shown::{Shown, Step};
pub use told::Told;
