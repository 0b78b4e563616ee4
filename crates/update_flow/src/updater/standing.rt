//! An open store that stands for what was imported is a sound one.
ghost use Rattle.std.specs.Prelude.{ℕ, List};
ghost use Rattle.outside.specs.Disk.{Tells};
ghost use Rattle.update_flow.specs.Handle.{IsOpen, view_of};
ghost use Rattle.update_flow.specs.Sound.{IsSound};
ghost use Rattle.update_flow.specs.SoundTurns.{IsOpenSound};
ghost use Rattle.update_flow.specs.State.{Holding, State, imported};

use super::Updater;
use outside::Disk;

impl<D: Disk> Updater<'_, D> {
    ghost use Rattle.update_flow.specs.Updater.{handle_of};

    /// One that stands for what was imported is open as a sound store, and the bytes of one that is are sound.
    pub fn open_is_sound(&self)
        ensures standing { (held : Holding) → IsOpen (imported held) (handle_of self.now) → (own : Holding) × IsOpenSound (imported own) (handle_of self.now) }
        ensures told { (state : State) (bytes : List ℕ) → IsOpenSound state (handle_of self.now) → Tells (view_of (handle_of self.now)) bytes
            → IsSound bytes }
    {}
}
