// Rows of an arena beside plain lists: edits that a formula picks, and what is read after each.
ghost use Rattle.std.specs.Prelude.{◌≡◌, ◌<◌, length, vec_len, IfSome, IfOk};
ghost use Rattle.om_arena.specs.Lists.{IsList, IsLive};

use crate::formula::number_after;
use om_arena::{Arena, Id, ListId};
use om_rows::{Bad, number, word};
use std::alloc::Global;

// The id at a place of a list, counted from 0.
fn id_at(arena: &Arena<u64>, list: ListId, place: usize) -> Option<Id<u64>>
    requires { IsList arena.now list }
    ensures { IfSome result (λ id. IsLive arena.now id) }
{
    let mut at = arena.first(list)?;
    for _ in 0..place {
        at = arena.next(at)?;
    }
    Some(at)
}

// Whether the list has these values in this order, and no more.
fn has_values(arena: &Arena<u64>, list: ListId, values: &[u64]) -> bool
    requires { IsList arena.now list }
{
    let mut at = arena.first(list);
    for value in values {
        let Some(id) = at else {
            return false;
        };
        if *arena.get(id) != *value {
            return false;
        }
        at = arena.next(id);
    }
    at.is_none()
}

// Adds a value at the end of a list and of the plain list beside it.
fn push(arena: &mut Arena<u64>, list: ListId, plain: &mut Vec<u64>, value: u64) -> Result<(), Bad>
    requires { IsList arena.old list }
    ensures { length arena.new.lists ≡ length arena.old.lists }
{
    if arena.reserve(1).is_err() {
        return Err(Bad::NoMemory);
    }
    arena.push_back(list, value);
    plain.push(value)?;
    Ok(())
}

// Adds a value behind an id, and behind a place of the plain list.
fn insert(
    arena: &mut Arena<u64>,
    at: Id<u64>,
    plain: &mut Vec<u64>,
    place: usize,
    value: u64,
) -> Result<(), Bad>
    requires live { IsLive arena.old at }
    requires place { place < vec_len plain.old }
    ensures { length arena.new.lists ≡ length arena.old.lists }
{
    if arena.reserve(1).is_err() {
        return Err(Bad::NoMemory);
    }
    arena.insert_after(at, value);
    plain.insert(place + 1, value)?;
    Ok(())
}

// One edit at a place that the number picks: at the end, after the place, out of the place, or over its value.
fn edit(arena: &mut Arena<u64>, list: ListId, plain: &mut Vec<u64>, number: u64) -> Result<(), Bad>
    requires { IsList arena.old list }
    ensures { length arena.new.lists ≡ length arena.old.lists }
{
    let place = (number >> 40) as usize % 32;
    let Some(at) = id_at(arena, list, place) else {
        return push(arena, list, plain, number);
    };
    if place >= plain.len() {
        return Ok(());
    }
    match number >> 32 & 3 {
        0 => return push(arena, list, plain, number),
        1 => return insert(arena, at, plain, place, number),
        2 => {
            arena.unlink(at);
            plain.remove(place);
        }
        _ => {
            *arena.get_mut(at) = number;
            plain[place] = number;
        }
    }
    Ok(())
}

/// Two lists of an arena, and the plain ones beside them.
#[derive(Drop)]
struct Both {
    arena: Arena<u64>,
    even: ListId,
    odd: ListId,
    evens: Vec<u64>,
    odds: Vec<u64>,
}

fn two_lists(alloc: Global) -> Result<Both, Bad>
    ensures even { IfOk result (λ b. IsList b.arena b.even) }
    ensures odd { IfOk result (λ b. IsList b.arena b.odd) }
{
    let mut arena = Arena::new(alloc);
    let Ok(even) = arena.add_list() else {
        return Err(Bad::NoMemory);
    };
    let Ok(odd) = arena.add_list() else {
        return Err(Bad::NoMemory);
    };
    Ok(Both {
        arena,
        even,
        odd,
        evens: Vec::new(alloc),
        odds: Vec::new(alloc),
    })
}

// The length of the shorter list after all edits; none where the lists differ from the plain ones after one of them.
fn tried(both: Both, seed: u64, edits: u64) -> Result<Option<u64>, Bad>
    requires even { IsList both.arena both.even }
    requires odd { IsList both.arena both.odd }
{
    let Both {
        mut arena,
        even,
        odd,
        mut evens,
        mut odds,
    } = both;
    let mut number = seed;
    for _ in 0..edits {
        number = number_after(number);
        if number >> 50 & 1 == 0 {
            edit(&mut arena, even, &mut evens, number)?;
        } else {
            edit(&mut arena, odd, &mut odds, number)?;
        }
        let like = has_values(&arena, even, evens.as_slice());
        if !like || !has_values(&arena, odd, odds.as_slice()) {
            return Ok(None);
        }
    }
    Ok(Some((evens.len() as u64).min(odds.len() as u64)))
}

/// `arena SEED EDITS => alike` or `unlike`: two lists after each edit; `few` where one of them has not more than ten values at
/// the end
pub fn edits(alloc: Global, input: &str) -> Result<String, Bad> {
    let (seed, count) = word(input);
    let seed = number(seed).ok_or(Bad::Text)?;
    let count = number(count).ok_or(Bad::Text)?;
    let text = match tried(two_lists(alloc)?, seed, count)? {
        None => "unlike",
        Some(shorter) if shorter > 10 => "alike",
        Some(_) => "few",
    };
    Ok(String::from_str(alloc, text)?)
}
