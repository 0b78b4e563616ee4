//! The least key of which something is not so.
ghost use Rattle.std.specs.Prelude.{◌≡◌, None};
ghost use Rattle.store_check.specs.Least.{with_key};

use std::marker::Model;

/// The least key of which something is not so, among those that were seen.
#[derive(Drop)]
pub struct Least {
    key: Option<u64>,
}

impl Model for Least {
    ghost use Rattle.std.specs.Prelude.{ℕ, Option};

    ghost Value = { Option ℕ };

    ghost view = { λ own. own.key };
}

impl Least {
    /// None was seen.
    pub(crate) fn new() -> Self
        ensures none { result ≡ None }
    {
        Self { key: None }
    }

    /// Sees a key, of which it is so or not. The keys may come in any order.
    pub(crate) fn see(&mut self, key: u64, is_so: bool)
        ensures seen { self.new ≡ with_key self.old key is_so }
    {
        if is_so {
            return;
        }
        match self.key {
            Some(least) if least <= key => (),
            _ => self.key = Some(key),
        }
    }

    /// The least of which it is not.
    pub(crate) fn key(&self) -> Option<u64>
        ensures key { result ≡ self.now }
    {
        self.key
    }
}
