//! Values by the numbers of chains.
ghost use Rattle.std.specs.Prelude.{◌≡◌, ◌<◌, Some, IfSome, OnOk, OnErr};
ghost use Rattle.std.specs.FinMap as map;
ghost use Rattle.std.specs.Option.{IsNone, option_copied, unwrap_or};

use osm_base::OutOfMemory;
use std::alloc::Global;
use std::collections::BTreeMap;
use std::marker::Model;

/// Values by the numbers of chains.
#[derive(Drop)]
pub struct NumberMap<T> {
    tree: BTreeMap<u32, T>,
}

impl<T> Model for NumberMap<T> {
    ghost use Rattle.std.specs.Coded.{coded_ℕ};
    ghost use Rattle.std.specs.Ordering.{nat_cmp};
    ghost use Rattle.std.specs.FinMap as map;

    ghost Value = { map.FinMap nat_cmp T };

    ghost coded = { map.code coded_ℕ T.code };

    ghost view = { λ numbers. map.from_entries numbers.tree.entries };
}

impl<T> NumberMap<T> {
    /// No value.
    pub fn new(alloc: Global) -> Self
        ensures empty { result ≡ map.empty }
    {
        Self {
            tree: BTreeMap::new(alloc),
        }
    }

    /// The value of a number.
    pub fn get(&self, n: u32) -> Option<&T>
        ensures value { option_copied result ≡ map.get self.now n }
    {
        self.tree.get(&n)
    }

    /// Gives a number this value.
    pub fn put(&mut self, n: u32, value: T) -> Result<(), OutOfMemory>
    where
        T: Drop,
        ensures ok { OnOk result (self.new ≡ map.insert self.old n value) }
        ensures err { OnErr result (self.new ≡ self.old) }
    {
        self.tree.insert(n, value)?;
        Ok(())
    }

    /// Takes the value of a number out of the map, or gives another where it has none.
    pub fn take_or(&mut self, n: u32, other: T) -> T
    where
        T: Drop,
        ensures value { result ≡ unwrap_or (map.get self.old n) other }
        ensures rest { self.new ≡ map.remove self.old n }
    {
        if let Some(value) = self.tree.remove(&n) {
            return value;
        }
        other
    }

    /// Takes the first number with its value out of the map.
    pub fn take_first(&mut self) -> Option<(u32, T)>
    where
        T: Drop,
        ensures none { IsNone result → self.old ≡ map.empty }
        ensures value { IfSome result (λ entry. map.get self.old entry.0 ≡ Some entry.1) }
        ensures rest { IfSome result (λ entry. self.new ≡ map.remove self.old entry.0) }
        ensures fewer { IfSome result (λ entry. map.len self.new < map.len self.old) }
    {
        match self.tree.pop_first() {
            Some(entry) => return Some(entry),
            None => return None,
        }
    }
}
