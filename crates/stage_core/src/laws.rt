//! What holds after every list of events.
ghost use Rattle.std.specs.Prelude.{ℕ, List, ◌++◌};
ghost use Rattle.stage_core.specs.Core.{after_all, begun};
ghost use Rattle.stage_core.specs.Promise.{Grows, Promise};
ghost use Rattle.stage_core.specs.declared.event.Event.{Event};

/// After every list of events each number below the lesser of the next number and n is one worker's
/// ticket, once; where all workers have ended, and there is one, each ticket is built, once; readers saw
/// what was published, and what was published or told was committed. No count ever falls.
pub fn each_ticket_once()
    ensures promise { (n workers readers : ℕ) (events : List Event) → Promise (after_all (begun n workers readers) events) }
    ensures grows { (n workers readers : ℕ) (earlier later : List Event)
        → Grows (after_all (begun n workers readers) earlier) (after_all (begun n workers readers) (earlier ++ later)) }
{}
