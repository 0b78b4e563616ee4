//! The store of a map, as an operator uses it: which states it goes through, and which bytes stand for which of them.
//!
//! On the path of the data it is where the disk is met: above it commands speak of states alone, and below it stand the buckets of a
//! store. `State`, `Step` and `History` of the specs say what an import, a change and a clearing make of a store, `StandsFor` which
//! bytes are a store of a state, and `FlowFault` why a step is refused. `check` opens a store and reads all of it: whether it is sound,
//! exactly both ways, with the page that is blamed.
#![tactic(auto)]

mod appending;
mod base;
mod checking;
mod clearing;
mod due_text;
mod either;
mod either_opening;
mod fault;
mod fields;
mod finishing;
mod follower;
mod follower_opening;
mod following;
mod ids;
mod importing;
mod judging;
mod laws;
mod maps;
mod migrating;
mod opened;
mod opening;
mod over_disk;
mod reading;
mod settling;
mod style_text;
mod taking;
mod updater;

pub use base::Base;
pub use checking::check;
pub use either::Either;
pub use either_opening::open_either;
pub use fault::{FlowFault, FollowFault, LAST_CHANGE, store_fault};
pub use fields::{
    BLANK, BLANK_FORMAT, DUE_TEXT, FOLLOWING, IMPORTED, IMPORTED_FORMAT, OLD_FORMAT, STYLE_TEXT,
    is_blank, is_following, is_imported, is_old, shared_numbers,
};
pub use follower::Follower;
pub use follower_opening::open_follower;
pub use laws::{a_follower_holds_its_source, sound_stands, standing_is_sound};
pub use opened::Opened;
pub use opening::open;
pub use style_text::load_style;
pub use updater::Updater;
