//! Examples of many readers beside a publisher.
use crate::notation::style;
use crate::plan::{Plan, changes_to, first_tables};
use crate::refusal::Refusal;
use crate::shows::Shows;
use crate::watch::Watch;
use example_table::{named_row, number_in};
use osm_base::TryCopy;
use std::alloc::Global;
use std::sync::Wait;
use std::thread::{self, Threads};
use style_read::Style;
use table_versions::{MapReaders, versions};

/// The most readers.
const MOST: u32 = 64;

/// A row `READERS CHANGES TURNS`: so many readers look on in threads of their own until they see the last of so many
/// changes, each so often at most. Each change is published once a reader has seen the one before, or after so many
/// turns. What comes out is what was good to the end.
pub fn served<R: Threads + Wait + Sync>(
    rt: &R,
    alloc: Global,
    given: &str,
    out: &mut String,
) -> Result<(), Refusal> {
    let Some((readers, changes, turns)) = given_by(given) else {
        return Err(Refusal::NoRow);
    };
    let style = style(alloc)?;
    let plan = Plan::new(alloc, &style, changes, turns)?;
    let mut watches = Vec::new(alloc);
    let good = watch_all(rt, alloc, &style, &plan, readers, &mut watches)?;
    let shut = count_shut(alloc, &plan, &mut watches);
    let seen = plan.count_seen();
    write!(out, "{good} good, {seen} versions seen, {shut} shut")?;
    Ok(())
}

/// The numbers of a row.
fn given_by(text: &str) -> Option<(u32, u64, u64)> {
    let (readers, rest) = named_row(text)?;
    let (changes, turns) = named_row(rest)?;
    Some((
        readers.parse::<u32>().ok()?,
        number_in(changes)?,
        number_in(turns)?,
    ))
}

/// Lets so many readers watch a publisher, which is ended then. How many found all good.
fn watch_all<R: Threads + Wait + Sync>(
    rt: &R,
    alloc: Global,
    style: &Style,
    plan: &Plan,
    readers: u32,
    watches: &mut Vec<Watch>,
) -> Result<usize, Refusal> {
    if readers < 1 || readers > MOST {
        return Err(Refusal::NoRow);
    }
    let style = style.copy(alloc)?;
    let first = first_tables(alloc)?;
    let (publisher, readers) = versions(rt, alloc, style, first, 0, readers)?;
    let mut shows = Shows::new(publisher, 0);
    let good = look_beside(rt, alloc, plan, &mut shows, readers, watches);
    shows.end(rt);
    good
}

/// Lets readers look on in threads of their own while the changes are published. How many of them found all good.
fn look_beside<R: Threads + Wait + Sync>(
    rt: &R,
    alloc: Global,
    plan: &Plan,
    shows: &mut Shows,
    readers: MapReaders,
    watches: &mut Vec<Watch>,
) -> Result<usize, Refusal> {
    add_watches(watches, readers)?;
    let (_, published) = thread::join_mut(
        rt,
        &mut || look_all(rt, alloc, plan, watches),
        &mut || publish_all(rt, alloc, plan, shows),
    );
    published?;
    Ok(count_good(alloc, plan, watches))
}

/// Adds the readers, as they begin.
fn add_watches(watches: &mut Vec<Watch>, mut readers: MapReaders) -> Result<(), Refusal> {
    for _ in 0..MOST {
        match readers.pop() {
            Some(reader) => watches.push(Watch::new(reader))?,
            None => break,
        }
    }
    Ok(())
}

/// Lets each reader look on in a thread of its own.
fn look_all<R: Threads + Sync>(rt: &R, alloc: Global, plan: &Plan, watches: &mut [Watch]) {
    let look_on = |_: usize, watch: &mut Watch| watch.look_on(alloc, plan);
    thread::for_each_mut(rt, watches, MOST as usize, &look_on);
}

/// Publishes each change once the version before it was seen, or after so many turns.
fn publish_all<R: Wait>(
    rt: &R,
    alloc: Global,
    plan: &Plan,
    shows: &mut Shows,
) -> Result<(), Refusal> {
    for version in 1..=plan.last() {
        plan.hold(version - 1);
        shows.publish(rt, changes_to(alloc, version)?)?;
    }
    Ok(())
}

/// How many readers found all good, and still see the last version.
fn count_good(alloc: Global, plan: &Plan, watches: &mut [Watch]) -> usize {
    let mut good = 0usize;
    for watch in watches {
        if watch.is_good(alloc, plan) {
            good = good.saturating_add(1);
        }
    }
    good
}

/// How many readers are let in no more.
fn count_shut(alloc: Global, plan: &Plan, watches: &mut [Watch]) -> usize {
    let mut shut = 0usize;
    for watch in watches {
        if watch.is_shut(alloc, plan) {
            shut = shut.saturating_add(1);
        }
    }
    shut
}
