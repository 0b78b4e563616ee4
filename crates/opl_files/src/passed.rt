//! A line in its place in a file.
ghost use Rattle.std.specs.Prelude.{◌≡◌, ◌<◌, ◌≤◌, ◌+◌, ℕ, None, Some, IfOk, IfErr, OnOk, IfSome};
ghost use Rattle.osm_base.specs.values.Key.{KeyOf};
ghost use Rattle.object_fold.specs.Change.{Follows, IsProper};
ghost use Rattle.opl_files.specs.Passed.{spelled, entry_fault, text_fault};
ghost use Rattle.opl_files.specs.Stops.{StopsAt};

use crate::FileFault;
use opl_object::{LineRefused, Why, read_line};
use osm_base::{Entry, Key, LimitKind, Limits};
use std::alloc::Global;

/// What of a file stands before a line.
#[derive(Clone, Copy)]
pub struct Passed {
    pub lines: u64,
    pub entries: u64,
    /// The key of the last entry.
    pub last: Option<Key>,
}

impl Passed {
    /// Nothing.
    pub fn new() -> Self
        ensures fields { result ≡ record { lines = 0; entries = 0; last = None } }
    {
        Self {
            lines: 0,
            entries: 0,
            last: None,
        }
    }

    /// The fault of the next line, which has this cause.
    fn malformed(&self, limits: &Limits, why: Why) -> FileFault
        requires { self.now.lines < limits.now.lines }
        ensures fault { result ≡ FileFault.Malformed (self.now.lines + 1) why }
    {
        // No limit is above that of the program, so the number of the line fits.
        let _lines = limits.lines();
        FileFault::Malformed {
            line: (self.lines + 1) as u32,
            why,
        }
    }

    /// Tests that an entry with this key may come next.
    fn admit(&self, limits: &Limits, key: Key) -> Result<(), FileFault>
        requires counted { self.now.lines < limits.now.lines }
        ensures ok { OnOk result (entry_fault limits.now self.now key ≡ None) }
        ensures follows { OnOk result (Follows self.now.last key) }
        ensures less { OnOk result (self.now.entries < limits.now.entries) }
        ensures err { IfErr result (λ fault. entry_fault limits.now self.now key ≡ Some fault) }
    {
        if let Some(earlier) = self.last {
            if earlier >= key {
                return Err(self.malformed(
                    limits,
                    Why::Order {
                        earlier,
                        later: key,
                    },
                ));
            }
        }
        let most = limits.entries();
        if self.entries >= most {
            return Err(FileFault::Limit {
                which: LimitKind::FileEntries,
                value: most + 1,
            });
        }
        Ok(())
    }

    /// The entry of the next line, where it may stand there.
    #[tactic(auto, unfolding(crate::specs::Passed::text_fault))]
    pub fn read(
        &self,
        alloc: Global,
        limits: &Limits,
        line: &[u8],
    ) -> Result<Option<Entry>, FileFault>
        requires counted { self.now.lines < limits.now.lines }
        ensures ok { OnOk result (text_fault limits.now self.now line.now ≡ None) }
        ensures entry { IfOk result (λ entry. entry ≡ spelled line.now) }
        ensures follows { IfOk result (λ entry. IfSome entry (λ entry. Follows self.now.last entry.key)) }
        ensures proper { IfOk result (λ entry. IfSome entry IsProper) }
        ensures less { IfOk result (λ entry. IfSome entry (λ _. self.now.entries < limits.now.entries)) }
        ensures stopped { IfErr result (StopsAt (λ fault. text_fault limits.now self.now line.now ≡ Some fault)) }
    {
        let entry = match read_line(alloc, line) {
            Ok(Some(entry)) => entry,
            Ok(None) => return Ok(None),
            Err(LineRefused::Bad(why)) => return Err(self.malformed(limits, why)),
            Err(LineRefused::OutOfMemory) => return Err(FileFault::OutOfMemory),
        };
        self.admit(limits, entry.key)?;
        Ok(Some(entry))
    }
}
