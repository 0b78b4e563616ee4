//! Who looks at what is published.
ghost use Rattle.std.specs.Prelude.{◌≡◌, ◌⊎◌, true, false, None, Some, is_some, IfNone, IfSome};
ghost use Rattle.left_right.specs.Sides.{view as knowledge};
ghost use Rattle.table_versions.specs.Fronts.{Begins};
ghost use Rattle.table_versions.specs.Rule.{IsVersion};
ghost use Rattle.table_versions.specs.Views.{IsNewReader};

use crate::front::Front;
use crate::rule::{Published, Sees, View};
use crate::shown::Shown;
use crate::told::Told;
use left_right::reader::{Reader, Reading};
use std::marker::Model;
use style_read::Style;

/// A handle to what is published, outside and inside.
pub(crate) type Handle = Reader<Shown, View, Published>;

pub(crate) type Inside = Reading<Shown, View, Published>;

/// What looks at what is published. It waits for nobody.
#[derive(Drop)]
pub struct MapReader {
    pub(crate) style: Style,
    pub(crate) handle: Option<Handle>,
    pub(crate) seen: Front,
    /// The longest history that it was told of.
    pub(crate) told: Front,
    pub(crate) refusals: u64,
}

impl Model for MapReader {
    ghost use Rattle.std.specs.Prelude.{◌≡◌, is_some, Some, IfSome};
    ghost use Rattle.left_right.specs.Sides.{view as knowledge};
    ghost use Rattle.table_versions.specs.Views.{ReaderOf, reader_code};

    ghost Value = { ReaderOf };

    ghost coded = { reader_code };

    ghost view = { λ own. record { style = own.style; has_handle = is_some own.handle; seen = own.seen; told = own.told; refusals = own.refusals } };

    ghost invariant = { λ own. (own.told.book ≡ own.seen.book)
        × IfSome own.handle (λ handle. knowledge handle.place ≡ Some own.seen.book) };
}

impl MapReader {
    /// A reader that has seen nothing of a history.
    pub(crate) fn new(style: Style, handle: Option<Handle>, front: &Front) -> Self
        requires { IfSome handle (λ handle. knowledge handle.place ≡ Some front.now.book) }
        ensures new { IsNewReader style front.now result }
    {
        Self {
            style,
            handle,
            seen: front.again(),
            told: front.again(),
            refusals: 0,
        }
    }

    /// From now on it sees no less than what is told, if it sees anything.
    pub fn learn(&mut self, told: Told)
        requires same { told.book ≡ self.old.seen.book }
        ensures told { self.old.has_handle ≡ true → Begins self.old.told self.new.told × Begins told self.new.told }
        ensures longer { (self.new ≡ self.old) ⊎ (self.new ≡ record self.old { told = told }) }
        ensures without { self.old.has_handle ≡ false → self.new ≡ self.old }
    {
        if self.handle.is_none() {
            return;
        }
        self.told = self.told.longer(&told.front);
    }
}

/// Lets a reader in, where what is shown goes on from what it saw and was told of.
pub(crate) fn enter(
    handle: &mut Option<Handle>,
    seen: &Front,
    told: &Front,
) -> Option<(Inside, Front)>
    requires knows { IfSome handle.old (λ handle. knowledge handle.place ≡ Some seen.now.book) }
    requires same { told.now.book ≡ seen.now.book }
    ensures outside { IfNone result ((is_some handle.new ≡ is_some handle.old) × IfSome handle.new (λ handle. knowledge handle.place ≡ Some seen.now.book)) }
    ensures inside { IfSome result (λ (inside, front). (is_some handle.old ≡ true) × (knowledge inside.place ≡ Some seen.now.book)) }
    ensures shown { IfSome result (λ (inside, front). IsVersion inside.part.value × (front ≡ inside.part.value.front)) }
    ensures front { IfSome result (λ (inside, front). Begins seen.now front × Begins told.now front) }
    ensures book { IfSome result (λ (inside, front). front.book ≡ seen.now.book) }
{
    match handle.take()?.enter_as::<Sees>() {
        Err(outside) => {
            *handle = Some(outside);
            None
        }
        Ok(inside) => match see(seen, told, &inside.get().front) {
            Some(front) => Some((inside, front)),
            None => {
                *handle = Some(inside.leave());
                None
            }
        },
    }
}

/// The front of what is shown, if it goes on from what was seen and told.
fn see(seen: &Front, told: &Front, shown: &Front) -> Option<Front>
    requires same { told.now.book ≡ seen.now.book }
    requires shown { shown.now.book ≡ seen.now.book }
    ensures front { IfSome result (λ front. (front ≡ shown.now) × Begins seen.now front × Begins told.now front) }
    ensures book { IfSome result (λ front. front.book ≡ seen.now.book) }
{
    if !seen.begins(shown) || !told.begins(shown) {
        return None;
    }
    Some(shown.again())
}
