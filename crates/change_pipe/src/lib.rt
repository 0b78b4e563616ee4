//! Files of changes that are read ahead of the thread that takes what they hold.
//!
//! On the path of the data it stands behind `object_fold`, which reads a file, and before who appends
//! what the files hold. One thread reads them in their order and puts what each was read as, a `Parcel`,
//! into a `Pipe`; another takes the parcels. Neither has to do with the other's end of the pipe.
//!
//! What was taken is always a front of what was put, in order and whole (`Pipe::end`). What is put are
//! the parcels of the files, in order, up to the first that is refused (`put_files`): each is what the
//! file's bytes read as, by as many workers as the caller says. No file behind a refused one is touched.
//! A pipe holds no more parcels than it was made for, and who waits for room or for a parcel sleeps.
//!
//! `append` calls `put_some` in one closure of a join, and in the other `has_begun`, `take_when_ready` as
//! often as it wants, and `stop`. `read_ahead` is this in small, for the examples.
#![tactic(auto)]

mod files;
mod joined;
mod parcel;
mod pipe;
mod putting;
mod rule;
mod view;

pub use files::ChangeFiles;
pub use joined::read_ahead;
pub use parcel::{Parcel, ParcelBody};
pub use pipe::{MAX_AHEAD, Pipe, Putter, Taker, make_pipe};
pub use putting::{put_files, put_some};
