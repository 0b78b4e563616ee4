//! `init STORE`: an empty store on an empty disk.
ghost use Rattle.std.specs.Prelude.{◌≡◌, ◌≢◌, length, Some};
ghost use Rattle.updater.specs.Command.{IsReadAs};
ghost use Rattle.updater.specs.commands.Init as init;
ghost use Rattle.std.specs.Result.{result_err};
ghost use Rattle.outside.specs.Bytes.{IfTold};
ghost use Rattle.outside.specs.Disk.{Stays};
ghost use Rattle.run_promise.specs.Courses.{init_course};
ghost use Rattle.run_promise.specs.Progress.{begun, unused};
ghost use Rattle.run_promise.specs.Runs.{GoesBy};
ghost use Rattle.run_promise.specs.World.{world};

use crate::forms::{Words, stored};
use crate::telling::tell;
use crate::words::Command;
use outside::{Disk, Inputs, Sink};
use page_journal::format;
use run_promise::Fault;

/// The line that tells of a new store.
const FORMATTED: &str = "formatted\n";

/// The form of its words.
pub fn form(words: Words<'_>) -> Option<Command<'_>>
    ensures read { IsReadAs init.form words.entry result }
{
    let store = stored(words)?;
    Some(Command::Init { store })
}

/// Makes an empty store on an empty disk, and tells so.
pub fn init<I: Inputs, D: Disk, S: Sink>(inputs: &I, disk: &mut D, out: &mut S) -> Result<(), Fault>
    ensures course { GoesBy init_course (begun unused 0) (result_err result)
        (world (I.view inputs.now) (D.view disk.old) (S.view out.old))
        (world (I.view inputs.now) (D.view disk.new) (S.view out.new)) }
    ensures no_store { result_err result ≡ Some Fault.NotFormatted → Stays (D.view disk.old) (D.view disk.new) }
    ensures looked { IfTold (D.view disk.old).content (λ bytes. length bytes ≢ 0 → Stays (D.view disk.old) (D.view disk.new)) }
{
    if let Err(fault) = format(disk) {
        return Err(Fault::in_store(fault));
    }
    tell(out, FORMATTED.as_bytes())
}
