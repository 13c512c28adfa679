//! The nodes of an arena and the ends of its lists.
ghost use Rattle.std.specs.Prelude.{◌≡◌, ◌<◌, ◌+◌, [], Some, None, length, vec_len};
ghost use Rattle.om_arena.specs.Keyed.{get, live_count, HasRoomFor, Updates};
ghost use Rattle.om_arena.specs.Linked.{slots_after, ends_after, slots_before, ends_before, CanWrite};

use crate::keys::MaybeKey;
use crate::slots::Slots;

// Where a value stands: its list, and the keys of its neighbours there.
#[derive(Clone, Copy)]
pub(crate) struct Link {
    pub(crate) list: u32,
    pub(crate) before: MaybeKey,
    pub(crate) after: MaybeKey,
}

// A value with its place.
#[derive(Drop)]
pub(crate) struct Node<T> {
    pub(crate) value: T,
    pub(crate) link: Link,
}

// The keys of the first and the last value of a list; both are absent where it is empty.
#[derive(Clone, Copy)]
pub(crate) struct Ends {
    pub(crate) first: MaybeKey,
    pub(crate) last: MaybeKey,
}

// The nodes under their keys, and the ends of each list under its number.
#[derive(Drop)]
pub(crate) struct Links<T> {
    pub(crate) nodes: Slots<Node<T>>,
    pub(crate) ends: Vec<Ends>,
}

impl<T> Links<T> {
    ghost use Rattle.om_arena.specs.Inserted.{IsInserted};

    // Has `to` come after `at`, or first in the list where `at` is absent.
    pub(crate) fn set_after(&mut self, list: u32, at: MaybeKey, to: MaybeKey)
        requires { CanWrite self.old.nodes self.old.ends.items list at }
        ensures slots { self.new.nodes.slots ≡ slots_after self.old.nodes.slots at to }
        ensures ends { self.new.ends.items ≡ ends_after self.old.ends.items list at to }
        ensures capacity { self.new.nodes.capacity ≡ self.old.nodes.capacity }
        ensures count { live_count self.new.nodes ≡ live_count self.old.nodes }
    {
        match at.get() {
            Some(key) => {
                let node = self.nodes.get_mut(key);
                node.link.after = to;
            }
            None => {
                let ends = &mut self.ends[list as usize];
                ends.first = to;
            }
        }
    }

    // Has `to` come before `at`, or last in the list where `at` is absent.
    pub(crate) fn set_before(&mut self, list: u32, at: MaybeKey, to: MaybeKey)
        requires { CanWrite self.old.nodes self.old.ends.items list at }
        ensures slots { self.new.nodes.slots ≡ slots_before self.old.nodes.slots at to }
        ensures ends { self.new.ends.items ≡ ends_before self.old.ends.items list at to }
        ensures capacity { self.new.nodes.capacity ≡ self.old.nodes.capacity }
        ensures count { live_count self.new.nodes ≡ live_count self.old.nodes }
    {
        match at.get() {
            Some(key) => {
                let node = self.nodes.get_mut(key);
                node.link.before = to;
            }
            None => {
                let ends = &mut self.ends[list as usize];
                ends.last = to;
            }
        }
    }

    // Puts `value` between two neighbours of a list, either of which may be absent.
    pub(crate) fn insert(&mut self, link: Link, value: T) -> u32
        requires room { HasRoomFor self.old.nodes 1 }
        requires before { CanWrite self.old.nodes self.old.ends.items link.list link.before }
        requires after { CanWrite self.old.nodes self.old.ends.items link.list link.after }
        ensures was_vacant { get self.old.nodes result ≡ None }
        ensures inserted { IsInserted self.old self.new link value result }
        ensures capacity { self.new.nodes.capacity ≡ self.old.nodes.capacity }
        ensures count { live_count self.new.nodes ≡ live_count self.old.nodes + 1 }
    {
        let Link {
            list,
            before,
            after,
        } = link;
        let key = self.nodes.insert(Node { value, link });
        let here = MaybeKey::of(key);
        self.set_after(list, before, here);
        self.set_before(list, after, here);
        key
    }
}
