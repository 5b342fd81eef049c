//! Which of many things come next.

ghost use Rattle.std.specs.Prelude.{◌≡◌, ◌≢◌, ◌+◌, ◌^◌, ◌<◌, ◌≤◌, ℕ, Bool, true, false, Option, List, length, take, drop, map, ◌++◌, [], replicate, ◌||◌, not, ◌&&◌, nat_eq, slice_set, slice_index_or, None, OnOk, OnErr, IfSome, IfOk, if◌then◌else◌};
ghost use Rattle.std.specs.BTreeSet.{contains};
ghost use Rattle.sim_waves.specs.Calendar.{pair_cmp, is_at, is_pair, InStep, IsEarliest, IsFirstOf, IsNextKey, keys_at, left_at};

use crate::NoMemory;
use std::alloc::Global;
use std::collections::BTreeSet;
use std::marker::Model;

/// A time in femtoseconds for some of the keys below its size, seen as the list of what each key
/// has. It gives the least time and the keys of a time at a cost that grows as the logarithm of
/// how many keys have a time.
#[derive(Debug, Drop)]
pub struct Calendar {
    times: Vec<Option<u64>>,
    // The keys that have a time, by time and then by key.
    order: BTreeSet<(u64, u32)>,
}

impl Model for Calendar {
    ghost use Rattle.std.specs.Prelude.{List, Option, ℕ};
    ghost use Rattle.std.specs.BTreeSet.{contains};
    ghost use Rattle.sim_waves.specs.Calendar.{pair_cmp, InStep};

    ghost Value = { List (Option ℕ) };

    ghost view = { λ c. c.times.items };

    ghost invariant = { λ c. InStep c.times.items (contains pair_cmp c.order) };
}

// Keeps that a key has this time, where it has one.
fn add(order: &mut BTreeSet<(u64, u32)>, key: u32, time: Option<u64>) -> Result<(), NoMemory>
    ensures ok { OnOk result ((t k : ℕ) → contains pair_cmp order.new (t, k) ≡ (if is_pair time key t k then true else contains pair_cmp order.old (t, k))) }
    ensures err { OnErr result (order.new.keys ≡ order.old.keys) }
{
    if let Some(time) = time {
        order.insert((time, key))?;
    }
    Ok(())
}

// Forgets that a key has this time.
fn forget(order: &mut BTreeSet<(u64, u32)>, key: u32, time: Option<u64>)
    ensures { (t k : ℕ) → contains pair_cmp order.new (t, k) ≡ (if is_pair time key t k then false else contains pair_cmp order.old (t, k)) }
{
    if let Some(time) = time {
        order.remove(&(time, key));
    }
}

// The least time that is kept.
fn first_time(order: &BTreeSet<(u64, u32)>) -> Option<u64>
    ensures { IsFirstOf result (contains pair_cmp order.now) }
{
    match order.first() {
        Some(&(time, _)) => Some(time),
        None => None,
    }
}

// The least key from `from` on that has the time `now`.
fn next_key(order: &BTreeSet<(u64, u32)>, now: u64, from: u32) -> Option<u32>
    ensures { IsNextKey result now from (contains pair_cmp order.now) }
{
    match order.range((now, from)..).next() {
        Some(&(time, key)) if time == now => Some(key),
        _ => None,
    }
}

// Gives a key another time. Where it fails, nothing is changed.
fn replace(
    times: &mut [Option<u64>],
    order: &mut BTreeSet<(u64, u32)>,
    key: u32,
    time: Option<u64>,
) -> Result<(), NoMemory>
    requires key { key < length times.old }
    requires in_step { InStep times.old (contains pair_cmp order.old) }
    ensures in_step { InStep times.new (contains pair_cmp order.new) }
    ensures ok { OnOk result (times.new ≡ slice_set times.old key time) }
    ensures err { OnErr result (times.new ≡ times.old) }
{
    let old = times[key as usize];
    if old == time {
        return Ok(());
    }
    add(order, key, time)?;
    forget(order, key, old);
    times[key as usize] = time;
    Ok(())
}

// Appends the keys that have the time `now`.
fn push_keys(
    times: &[Option<u64>],
    order: &BTreeSet<(u64, u32)>,
    now: u64,
    into: &mut Vec<u32>,
) -> Result<(), NoMemory>
    requires { InStep times.now (contains pair_cmp order.now) }
    ensures ok { OnOk result (into.new.items ≡ into.old.items ++ keys_at now 0 times.now) }
    ensures err { OnErr result ((more : List ℕ) × (into.new.items ≡ into.old.items ++ more)) }
{
    let mut from = 0;
    while from < times.len() {
        let Some(key) = next_key(order, now, from as u32) else {
            break;
        };
        into.push(key)?;
        from = key as usize + 1;
    }
    Ok(())
}

// Takes the time `now` from all keys that have it.
fn clear_keys(times: &mut [Option<u64>], order: &mut BTreeSet<(u64, u32)>, now: u64)
    requires { InStep times.old (contains pair_cmp order.old) }
    ensures in_step { InStep times.new (contains pair_cmp order.new) }
    ensures left { times.new ≡ map (left_at now) times.old }
{
    let mut from = 0;
    while from < times.len() {
        let Some(key) = next_key(order, now, from as u32) else {
            break;
        };
        forget(order, key, Some(now));
        times[key as usize] = None;
        from = key as usize + 1;
    }
}

impl Calendar {
    // A calendar of this many keys, none of which has a time.
    pub(crate) fn with_size(alloc: Global, size: u32) -> Result<Calendar, NoMemory>
        ensures { IfOk result (λ calendar. calendar ≡ replicate size None) }
    {
        let none: Option<u64> = None;
        Ok(Calendar {
            times: vec![in alloc; none; size as usize]?,
            order: BTreeSet::new(alloc),
        })
    }

    /// Gives the key another time, or none, and changes no other key. It needs a key below the
    /// size. Where it fails, nothing is changed.
    pub fn set(&mut self, key: u32, time: Option<u64>) -> Result<(), NoMemory>
        requires { key < length self.old }
        ensures ok { OnOk result (self.new ≡ slice_set self.old key time) }
        ensures err { OnErr result (self.new ≡ self.old) }
    {
        replace(&mut self.times, &mut self.order, key, time)
    }

    /// The least of the times, and `None` exactly where no key has one. It takes no memory.
    pub fn earliest(&self) -> Option<u64>
        ensures { IsEarliest result self.now }
    {
        first_time(&self.order)
    }

    /// Appends the keys whose time is `now`, in rising order, and takes their times from them. Where
    /// it fails, nothing is changed.
    pub fn take(&mut self, now: u64, into: &mut Vec<u32>) -> Result<(), NoMemory>
        ensures ok { OnOk result (into.new.items ≡ into.old.items ++ keys_at now 0 self.old) }
        ensures left { OnOk result (self.new ≡ map (left_at now) self.old) }
        ensures kept { OnErr result (self.new ≡ self.old) }
        ensures err { OnErr result (into.new.items ≡ into.old.items) }
    {
        let before = into.len();
        match push_keys(&self.times, &self.order, now, into) {
            Ok(()) => {
                clear_keys(&mut self.times, &mut self.order, now);
                Ok(())
            }
            Err(e) => {
                into.truncate(before);
                Err(e)
            }
        }
    }
}
