//! The calls of an object in memory: how many were made, how many failed, and which are to fail.
ghost use Rattle.std.specs.Prelude.{◌≡◌, ◌≤◌, ◌↔◌, IsErr, is_err};
ghost use Rattle.doubles.specs.Calls.{NamesNext, after_call};
ghost use Rattle.outside.specs.Causes.{HasCause};
ghost use Rattle.outside.specs.Counts.{one_more};

use crate::Fails;
use outside::Failed;
use std::marker::Model;

#[derive(Drop)]
pub struct Calls {
    fails: Fails,
    made: u64,
    failed: u64,
}

impl Model for Calls {
    ghost use Rattle.doubles.specs.Calls.{CallLog};

    ghost Value = { CallLog };

    ghost view = { λ calls. record { fails = calls.fails; made = calls.made; failed = calls.failed } };
}

impl Calls {
    /// No call yet.
    pub fn new(fails: Fails) -> Self
        ensures none { result ≡ record { fails = fails; made = 0; failed = 0 } }
    {
        Self {
            fails,
            made: 0,
            failed: 0,
        }
    }

    /// Counts a call, and as failed where it is to fail.
    pub fn begin(&mut self) -> Result<(), Failed>
        ensures named { IsErr result ↔ NamesNext self.old }
        ensures counted { self.new ≡ after_call self.old (is_err result) }
        ensures cause { HasCause self.old.failed self.new.failed result }
    {
        self.made = self.made.saturating_add(1);
        if self.fails.names(self.made) {
            return Err(self.fail());
        }
        Ok(())
    }

    /// Counts the call that has begun as failed.
    pub fn fail(&mut self) -> Failed
        ensures counted { self.new ≡ record self.old { failed = one_more self.old.failed } }
        ensures later { self.old.failed ≤ self.new.failed }
    {
        self.failed = self.failed.saturating_add(1);
        Failed
    }
}
