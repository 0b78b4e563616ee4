//! What rows are built of, gathered from a store.
ghost use Rattle.std.specs.Prelude.{◌≡◌, [], ◌∷◌, false, IfOk, OnOk};
ghost use Rattle.store_maps.specs.Asked.{May};
ghost use Rattle.store_maps.specs.Maps.{Maps};
ghost use Rattle.store_maps.specs.Named.{known_on};
ghost use Rattle.update_step.specs.Gather.{AreAsked, Gathers, IsRight, all_needs, gathered_in};
ghost use Rattle.update_step.specs.Looks.{Looks};
ghost use Rattle.update_step.specs.Named.{AreKnown};
ghost use Rattle.update_step.specs.Touch.{MayAsk, MayAskAll};

use crate::StepFault;
use crate::answers::StoreAnswers;
use crate::asks::{Ask, behind, of_keys, of_parts};
use crate::listers::Listers;
use object_fold::Change;
use osm_base::Key;
use std::alloc::Global;
use store_maps::MapStore;
use style_read::Style;

/// Asks a store, unless the answer is there.
fn ask_one<S: MapStore>(
    store: &mut S,
    answers: &mut StoreAnswers<'_>,
    ask: Ask,
) -> Result<(), StepFault<S::Refusal>>
    requires spent { S.spent store.old ≡ false }
    ensures gathers { OnOk result ((under : S.Under) (maps : Maps) → S.holds store.old under maps
        → Gathers (known_on maps) (gathered_in answers.old) (gathered_in answers.new) (ask ∷ [])) }
    ensures within { (may : May) → MayAsk may ask → S.within may store.old → S.within may store.new }
    ensures looks { Looks S.MapStore.own S.Back store.old store.new result }
{
    if answers.has(&ask) {
        return Ok(());
    }
    match ask {
        Ask::AtNode(id) => {
            let place = store.place(id).map_err(StepFault::Store)?;
            answers.put_place(id, place)?;
            Ok(())
        }
        Ask::OfKey(key) => {
            let form = store.object(key).map_err(StepFault::Store)?;
            answers.put_form(key, form)?;
            Ok(())
        }
        Ask::AlongWay(id) => {
            let ids = store.along_way(id).map_err(StepFault::Store)?;
            answers.put_along(id, Listers::new(ids))?;
            Ok(())
        }
        Ask::AroundNode(id) => {
            let ids = store.around_node(id).map_err(StepFault::Store)?;
            answers.put_around(id, Listers::new(ids))?;
            Ok(())
        }
    }
}

/// Asks a store all of these.
fn ask_all<S: MapStore>(
    store: &mut S,
    answers: &mut StoreAnswers<'_>,
    asks: &[Ask],
) -> Result<(), StepFault<S::Refusal>>
    requires spent { S.spent store.old ≡ false }
    ensures gathers { OnOk result ((under : S.Under) (maps : Maps) → S.holds store.old under maps
        → Gathers (known_on maps) (gathered_in answers.old) (gathered_in answers.new) asks.now) }
    ensures within { (may : May) → MayAskAll may asks.now → S.within may store.old → S.within may store.new }
    ensures looks { Looks S.MapStore.own S.Back store.old store.new result }
{
    for &ask in asks {
        ask_one(store, answers, ask)?;
    }
    Ok(())
}

/// What the rows of these keys are built of, as a store has it. The store has what the change says, and is not asked for it.
pub(crate) fn gathered<'c, S: MapStore>(
    alloc: Global,
    store: &mut S,
    change: &'c Change,
    style: &Style,
    reaches: bool,
    keys: &[Key],
) -> Result<StoreAnswers<'c>, StepFault<S::Refusal>>
    requires spent { S.spent store.old ≡ false }
    ensures right { IfOk result (λ answers. (under : S.Under) (maps : Maps) → S.holds store.old under maps → AreKnown (known_on maps) change.now
        → IsRight (gathered_in answers) (known_on maps)) }
    ensures asked { IfOk result (λ answers. (under : S.Under) (maps : Maps) → S.holds store.old under maps → AreKnown (known_on maps) change.now
        → AreAsked (gathered_in answers) (all_needs style.now reaches (known_on maps) keys.now)) }
    ensures within { (under : S.Under) (maps : Maps) → S.holds store.old under maps → AreKnown (known_on maps) change.now → (may : May)
        → MayAskAll may (all_needs style.now reaches (known_on maps) keys.now) → S.within may store.old → S.within may store.new }
    ensures looks { Looks S.MapStore.own S.Back store.old store.new result }
{
    let mut answers = StoreAnswers::new(alloc, change);
    let objects = of_keys(alloc, keys)?;
    let objects = objects.as_slice();
    ask_all(store, &mut answers, objects)?;
    let parts = of_parts(alloc, style, reaches, keys, &answers)?;
    let parts = parts.as_slice();
    ask_all(store, &mut answers, parts)?;
    let more = behind(alloc, parts, &answers)?;
    let more = more.as_slice();
    ask_all(store, &mut answers, more)?;
    Ok(answers)
}
