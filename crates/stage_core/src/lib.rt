//! The machine of a run's stages, without threads, store or output: which steps its actors may take,
//! one at a time, and what each of them changes.
//!
//! Workers draw tickets, build them and end; then a change is committed, told by a line and published
//! to readers. A running program takes these steps in some order, which no one chooses. What holds here
//! after every list of steps, `each_ticket_once`, therefore holds of each order. It stands beside the
//! path of the data: `docs/THREADS.md` says which step of the running program is which event.
//! For callers outside: the program does not use it.
#![tactic(auto)]

mod event;
mod laws;
mod state;
mod worker;

pub use event::Event;
pub use laws::each_ticket_once;
pub use state::CoreState;
