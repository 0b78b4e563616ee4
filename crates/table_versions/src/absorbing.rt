//! How a copy takes in a step.
use crate::shown::{Shown, Step};
use left_right::Absorb;
use osm_base::TryCopy;
use std::alloc::AllocError;

impl Absorb<Step> for Shown {
    ghost use Rattle.table_versions.specs.Steps.{stepped};

    type State = Shown;

    ghost state = { λ shown. shown };

    ghost applied = { stepped };

    fn absorb_first(&mut self, step: &Step, _other: &Shown) -> Result<(), AllocError> {
        let done = match step {
            Step::Boxed { table, key, around } => self.boxes.set(*table, *key, *around),
            Step::Changed { change } => match change.copy(self.alloc) {
                Ok(change) => self.tables.apply(change),
                Err(error) => Err(error),
            },
            Step::Whole { version, front } => {
                self.version = *version;
                self.front = front.again();
                Ok(())
            }
        };
        done.map_err(|_| AllocError)
    }
}
