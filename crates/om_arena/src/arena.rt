//! The arena and its calls.
ghost use Rattle.std.specs.Prelude.{◌≡◌, ◌<◌, ◌≤◌, ◌+◌, ◌-◌, ◌++◌, ◌∷◌, [], Some, None, length, IfSome, IfOk, OnOk, OnErr};
ghost use Rattle.std.specs.Borrow.{sem};
ghost use Rattle.om_arena.specs.Lists.{IsList, IsLive, TakesOne, items, value_of, next_of, first_id, home, pushed, inserted, unlinked, IdsDiffer, ListsAreApart, HomesHold, LiveIdsStand, StandingIdsLive, RoomLasts};

use crate::causes::NoMemory;
use crate::ids::{Id, ListId};
use crate::keys::MaybeKey;
use crate::links::{Ends, Link, Links, Node};
use crate::slots::{KEYS, Slots};
use std::alloc::Global;
use std::marker::Model;

/// Lists of values, in nodes of one slab that are linked both ways: beside its value a node has 12 bytes of links.
/// At most 4,294,967,295 values, and as many lists, are ever held.
#[derive(Drop)]
pub struct Arena<T> {
    links: Links<T>,
}

impl<T> Model for Arena<T> {
    ghost use Rattle.std.specs.Prelude.{◌-◌};
    ghost use Rattle.om_arena.specs.Keyed.{live_count};
    ghost use Rattle.om_arena.specs.Lists.{Arena as Lists, arena_code};

    ghost Value = { Lists T };

    ghost coded = { arena_code T.code };

    ghost use Rattle.om_arena.specs.Linked.{lists_of, IsLinked};

    ghost view = { λ a. record {
      lists = lists_of a.links.nodes.slots a.links.ends.items;
      spare = a.links.nodes.capacity - live_count a.links.nodes;
    } };

    ghost invariant = { λ a. IsLinked a.links.nodes.slots a.links.ends.items };
}

impl<T> Arena<T> {
    ghost use Rattle.om_arena.specs.Lends.{lends_value};

    /// An arena with no lists, which has taken no memory.
    pub fn new(alloc: Global) -> Arena<T>
        ensures lists { result.lists ≡ [] }
        ensures spare { result.spare ≡ 0 }
    {
        Arena {
            links: Links {
                nodes: Slots::new(alloc),
                ends: Vec::new(alloc),
            },
        }
    }

    /// Adds an empty list behind the others. `NoMemory` is also the answer where no more can be held.
    pub fn add_list(&mut self) -> Result<ListId, NoMemory>
        ensures number { IfOk result (λ list. list ≡ length self.old.lists) }
        ensures added { OnOk result (self.new.lists ≡ self.old.lists ++ [] ∷ []) }
        ensures spare { OnOk result (self.old.spare ≤ self.new.spare) }
        ensures refused { OnErr result (self.new ≡ self.old) }
    {
        let number = self.links.ends.len();
        if number >= KEYS {
            return Err(NoMemory);
        }
        let ends = Ends {
            first: MaybeKey::NONE,
            last: MaybeKey::NONE,
        };
        match self.links.ends.push(ends) {
            Ok(()) => Ok(ListId::new(number as u32)),
            Err(_) => Err(NoMemory),
        }
    }

    /// Makes room for `n` insertions in all that need no memory. `NoMemory` is also the answer where so many
    /// values can never be held.
    pub fn reserve(&mut self, n: u64) -> Result<(), NoMemory>
        ensures room { OnOk result (n ≤ self.new.spare) }
        ensures lists { self.new.lists ≡ self.old.lists }
        ensures spare { self.old.spare ≤ self.new.spare }
    {
        self.links.nodes.reserve(n)
    }

    /// The first id of a list. None stands exactly where the list is empty.
    pub fn first(&self, list: ListId) -> Option<Id<T>>
        requires { IsList self.now list }
        ensures first { result ≡ first_id (items self.now list) }
        ensures live { IfSome result (λ id. IsLive self.now id) }
    {
        Id::of_key(self.links.ends[list.number()].first)
    }

    /// The id right after `id` in its list. None stands exactly where `id` is the last one.
    pub fn next(&self, id: Id<T>) -> Option<Id<T>>
        requires { IsLive self.now id }
        ensures next { result ≡ next_of self.now id }
        ensures live { IfSome result (λ next. IsLive self.now next) }
    {
        Id::of_key(self.links.nodes.get(id.key()).link.after)
    }

    /// The list that `id` stands in.
    pub fn list_of(&self, id: Id<T>) -> ListId
        requires { IsLive self.now id }
        ensures { result ≡ home id self.now.lists }
    {
        ListId::new(self.links.nodes.get(id.key()).link.list)
    }

    /// The value under `id`.
    pub fn get(&self, id: Id<T>) -> &T
        requires { IsLive self.now id }
        ensures { value_of self.now id ≡ Some result.now }
    {
        &self.links.nodes.get(id.key()).value
    }

    /// The value under `id`, for writing.
    pub fn get_mut(&mut self, id: Id<T>) -> &mut T
        requires { IsLive self.old id }
        ensures* writes_back { sem 𝓛 (lends_value T.row self.entry id result) }
        ensures value { value_of self.old id ≡ Some result.now }
    {
        let node = self.links.nodes.get_mut(id.key());
        &mut node.value
    }

    /// Puts `value` at the end of a list.
    pub fn push_back(&mut self, list: ListId, value: T) -> Id<T>
        requires list { IsList self.old list }
        requires spare { 0 < self.old.spare }
        ensures fresh { value_of self.old result ≡ None }
        ensures pushed { self.new.lists ≡ pushed self.old list (result, value) }
        ensures spare { TakesOne self.old self.new }
    {
        let before = self.links.ends[list.number()].last;
        let link = Link {
            list: list.as_u32(),
            before,
            after: MaybeKey::NONE,
        };
        Id::new(self.links.insert(link, value))
    }

    /// Puts `value` right after the id `at` in its list.
    pub fn insert_after(&mut self, at: Id<T>, value: T) -> Id<T>
        requires live { IsLive self.old at }
        requires spare { 0 < self.old.spare }
        ensures fresh { value_of self.old result ≡ None }
        ensures inserted { self.new.lists ≡ inserted self.old at (result, value) }
        ensures spare { TakesOne self.old self.new }
    {
        let key = at.key();
        let place = self.links.nodes.get(key).link;
        let neighbour = MaybeKey::of(key);
        let link = Link {
            list: place.list,
            before: neighbour,
            after: place.after,
        };
        Id::new(self.links.insert(link, value))
    }

    /// Takes the value under `id` out of its list. The id is no longer live.
    pub fn unlink(&mut self, id: Id<T>) -> T
        requires { IsLive self.old id }
        ensures value { value_of self.old id ≡ Some result }
        ensures unlinked { self.new.lists ≡ unlinked self.old id }
        ensures spare { self.old.spare ≤ self.new.spare }
    {
        let Node { value, link } = self.links.nodes.remove(id.key());
        self.links.set_after(link.list, link.before, link.after);
        self.links.set_before(link.list, link.after, link.before);
        value
    }

    /// A law: no id stands at two places, in one list or in two.
    pub fn ids_differ(&self)
        ensures differ { IdsDiffer self.now }
        ensures apart { ListsAreApart self.now }
        ensures homes { HomesHold self.now }
    {
        let _ = &self.links;
    }

    /// A law: each live id stands at one place, in the list that `list_of` gives.
    pub fn live_ids_stand(&self)
        ensures stands { LiveIdsStand self.now }
        ensures lives { StandingIdsLive self.now }
    {
        let _ = &self.links;
    }

    /// A law: after `reserve(n)`, n insertions cannot be refused, whatever is read, written and taken out between
    /// them.
    pub fn room_lasts()
        ensures { RoomLasts T }
    {}
}
