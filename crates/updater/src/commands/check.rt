//! `check STORE`: whether a store is sound.
ghost use Rattle.std.specs.Prelude.{◌≡◌, false, IfErr, OnOk};
ghost use Rattle.std.specs.Result.{result_err};
ghost use Rattle.update_flow.specs.Handle.{is_old, view_of};
ghost use Rattle.update_flow.specs.State.{State};
ghost use Rattle.update_flow.specs.Updater.{handle_of};
ghost use Rattle.updater.specs.Command.{IsReadAs};
ghost use Rattle.run_promise.specs.Checking.{IsChecked};
ghost use Rattle.run_promise.specs.Course.{opens};
ghost use Rattle.run_promise.specs.Courses.{checks};
ghost use Rattle.updater.specs.Heads.{GoesOn, IsHead};
ghost use Rattle.run_promise.specs.Progress.{Progress};
ghost use Rattle.updater.specs.Works.{Does, NoFile};
ghost use Rattle.run_promise.specs.World.{Before, world};
ghost use Rattle.updater.specs.commands.Check as check;

use crate::forms::{Words, stored};
use crate::telling::tell;
use crate::words::Command;
use osm_base::Limits;
use outside::{Disk, Inputs, Sink};
use run_promise::Fault;
use std::alloc::Global;
use update_flow::Updater;

/// The line that tells that the store is sound.
const SOUND_LINE: &str = "sound\n";

/// The form of its words.
pub fn form(words: Words<'_>) -> Option<Command<'_>>
    ensures read { IsReadAs check.form words.entry result }
{
    let store = stored(words)?;
    Some(Command::Check { store })
}

/// Opens the store, looks at all of it, and tells that it is sound. `BadStore`: it is not, and the page tells where.
pub fn check<I: Inputs, D: Disk, S: Sink>(
    alloc: Global,
    inputs: &I,
    disk: &mut D,
    out: &mut S,
) -> Result<(), Fault>
    ensures does { Does (opens checks) (λ asked. I.reads inputs.now asked inputs.now) NoFile
        (world (I.view inputs.now) (D.view disk.old) (S.view out.old)) (world (I.view inputs.now) (D.view disk.new) (S.view out.new)) (result_err result) }
    ensures checked { IsChecked (D.view disk.old).content (result_err result) }
{
    let limits = Limits::standard();
    let found = match update_flow::check(alloc, disk, &limits) {
        Ok(found) => found,
        Err(fault) => return Err(Fault::in_flow(fault)),
    };
    let Some(opened) = found else {
        return Err(Fault::Follower);
    };
    let store = Updater::over(alloc, disk, opened, &limits);
    let done = tell_sound(inputs, &store, out);
    let _disk = store.close();
    done
}

/// Tells of a store that was looked at. One of the old format was only opened.
fn tell_sound<I: Inputs, D: Disk, S: Sink>(
    inputs: &I,
    store: &Updater<'_, D>,
    out: &mut S,
) -> Result<(), Fault>
    ensures goes_on { (old : Before) (start done : Progress) (state : State) → IsHead start done state 0 old (I.view inputs.now) (handle_of store.now) (S.view out.old)
        → GoesOn (checks state) start done (result_err result) old (world (I.view inputs.now) (view_of (handle_of store.now)) (S.view out.new)) }
    ensures judged { OnOk result (is_old (handle_of store.now) ≡ false) }
    ensures alone { IfErr result check.EndsCheck }
{
    if store.old() {
        return Err(Fault::OldFormat);
    }
    tell(out, SOUND_LINE.as_bytes())
}
