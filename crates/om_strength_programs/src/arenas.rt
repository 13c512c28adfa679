// Callers of om_arena.
ghost use Rattle.std.specs.Prelude.{◌≡◌, ◌<◌, ◌≤◌, Some, None, length, OnOk};
ghost use Rattle.om_arena.specs.Lists.{IsList, IsLive, TakesOne, value_of, home, pushed, inserted, unlinked};

use om_arena::{Arena, Id, ListId, NoMemory};

/// Makes room for `n` values.
pub fn reserve(arena: &mut Arena<u64>, n: u64) -> Result<(), NoMemory>
    ensures room { OnOk result (n ≤ arena.new.spare) }
    ensures lists { arena.new.lists ≡ arena.old.lists }
    ensures spare { arena.old.spare ≤ arena.new.spare }
{
    arena.reserve(n)
}

/// Puts a value at the end of a list.
pub fn push_back(arena: &mut Arena<u64>, list: ListId, value: u64) -> Id<u64>
    requires list { IsList arena.old list }
    requires spare { 0 < arena.old.spare }
    ensures fresh { value_of arena.old result ≡ None }
    ensures pushed { arena.new.lists ≡ pushed arena.old list (result, value) }
    ensures spare { TakesOne arena.old arena.new }
{
    arena.push_back(list, value)
}

/// Puts a value behind an id.
pub fn insert_after(arena: &mut Arena<u64>, at: Id<u64>, value: u64) -> Id<u64>
    requires live { IsLive arena.old at }
    requires spare { 0 < arena.old.spare }
    ensures fresh { value_of arena.old result ≡ None }
    ensures inserted { arena.new.lists ≡ inserted arena.old at (result, value) }
    ensures spare { TakesOne arena.old arena.new }
{
    arena.insert_after(at, value)
}

/// Takes a value out of its list.
pub fn unlink(arena: &mut Arena<u64>, id: Id<u64>) -> u64
    requires { IsLive arena.old id }
    ensures value { value_of arena.old id ≡ Some result }
    ensures unlinked { arena.new.lists ≡ unlinked arena.old id }
    ensures spare { arena.old.spare ≤ arena.new.spare }
{
    arena.unlink(id)
}

/// The list that an id stands in, where another id is live too.
pub fn list_of(arena: &Arena<u64>, id: Id<u64>, other: Id<u64>) -> ListId
    requires id { IsLive arena.now id }
    requires other { IsLive arena.now other }
    ensures { result ≡ home id arena.now.lists }
{
    arena.list_of(id)
}
