// What is found of the small program's graph. A jump by a register may go to (0, 0), (0, 28) and (1, 0).
ghost use Rattle.std.specs.Prelude.{IfOk};
ghost use Rattle.om_graph.specs.OfProgram.{IsGraphOf};

use crate::small::{has_flow, op_at, place, program};
use om_alpha::Level;
use om_gat::group;
use om_gpfacts::Fact;
use om_graph::{Graph, OpId};
use om_io::NoMemory;
use om_lift::lift_program;
use om_prog::Program;
use om_uses::Uses;
use om_value::Place;
use std::alloc::Global;
use std::test::Fail;

// What r29 holds at a block, if the facts that are found pass their check.
fn fact_at(alloc: Global, p: &Program, g: &Graph, at: Place) -> Result<Option<Fact>, NoMemory>
    requires { IsGraphOf p.now g.now }
{
    has_flow(p, g);
    let facts = om_gpfacts::solve(alloc, g)?;
    if !om_gpfacts::check(g, &facts) {
        return Ok(None);
    }
    match g.block(at) {
        Some(b) => Ok(Some(facts.fact(b))),
        None => Ok(None),
    }
}

// The registers that may be read from a block on, if the masks that are found pass their check.
fn mask_at(alloc: Global, p: &Program, g: &Graph, at: Place) -> Result<Option<u32>, NoMemory>
    requires { IsGraphOf p.now g.now }
{
    has_flow(p, g);
    let live = om_live::solve(alloc, g)?;
    if !om_live::check(g, &live) {
        return Ok(None);
    }
    match g.block(at) {
        Some(b) => Ok(Some(live.mask(b))),
        None => Ok(None),
    }
}

// The program's graph, with its tables grouped at a level.
fn grouped(alloc: Global, p: &Program, level: Level) -> Result<Graph, NoMemory>
    ensures { IfOk result (λ g. IsGraphOf p.now g) }
{
    let mut g = lift_program(alloc, p)?;
    has_flow(p, &g);
    let _ = p.objects();
    group(alloc, &mut g, level)?;
    Ok(g)
}

// The table of an object.
fn table_of(g: &Graph, obj: u32) -> Option<u32> {
    if obj < g.objects() {
        Some(g.table(obj))
    } else {
        None
    }
}

// The first block begins with the entry's table, but a return from the second object, which has another, may go there too.
#[test]
fn facts_of_two_tables(rt: HostRuntime) -> Result<(), Fail> {
    let alloc = rt.alloc();
    let p = program(alloc)?;
    let g = lift_program(alloc, &p)?;
    let entry = fact_at(alloc, &p, &g, place(0, 0))?;
    let behind_pair = fact_at(alloc, &p, &g, place(0, 8))?;
    let called = fact_at(alloc, &p, &g, place(1, 8))?;
    assert_eq!(rt; entry, Some(Fact::Unknown));
    assert_eq!(rt; behind_pair, Some(Fact::Table(0)));
    assert_eq!(rt; called, Some(Fact::Table(1)));
    Ok(())
}

#[test]
fn facts_of_one_table(rt: HostRuntime) -> Result<(), Fail> {
    let alloc = rt.alloc();
    let p = program(alloc)?;
    let g = grouped(alloc, &p, Level::Full)?;
    let entry = fact_at(alloc, &p, &g, place(0, 0))?;
    let called = fact_at(alloc, &p, &g, place(1, 0))?;
    assert_eq!(rt; entry, Some(Fact::Table(0)));
    assert_eq!(rt; called, Some(Fact::Table(0)));
    Ok(())
}

// The entry reads r27; r1, r3, r26 and r29 are written before the call, and r16, r17 and r18 are read by the system call.
#[test]
fn masks(rt: HostRuntime) -> Result<(), Fail> {
    let alloc = rt.alloc();
    let p = program(alloc)?;
    let g = lift_program(alloc, &p)?;
    let entry = mask_at(alloc, &p, &g, place(0, 0))?;
    let behind_call = mask_at(alloc, &p, &g, place(0, 28))?;
    assert_eq!(rt; entry, Some(0x0807_0000));
    assert_eq!(rt; behind_call, Some(0x0407_0000));
    Ok(())
}

#[test]
fn tables(rt: HostRuntime) -> Result<(), Fail> {
    let alloc = rt.alloc();
    let p = program(alloc)?;
    let plain = grouped(alloc, &p, Level::Plain)?;
    let full = grouped(alloc, &p, Level::Full)?;
    assert_eq!(rt; table_of(&plain, 0), Some(0));
    assert_eq!(rt; table_of(&plain, 1), Some(1));
    assert_eq!(rt; table_of(&full, 0), Some(0));
    assert_eq!(rt; table_of(&full, 1), Some(0));
    Ok(())
}

// The op at a place of the block at 8 of the first object.
fn op_of_main(g: &Graph, at: u32) -> Option<OpId> {
    op_at(g, g.block(place(0, 8))?, at)
}

// The first load's result is read by the load behind it and by the LDA, which writes its register again.
#[test]
fn readers_of_a_load(rt: HostRuntime) -> Result<(), Fail> {
    let alloc = rt.alloc();
    let p = program(alloc)?;
    let g = lift_program(alloc, &p)?;
    let u = Uses::scratch(alloc, &g)?;
    let load = op_of_main(&g, 0).ok_or("no load")?;
    let first = u.next_reader(load, None);
    assert!(rt; first.is_some() && first == op_of_main(&g, 1));
    let second = u.next_reader(load, first);
    assert!(rt; second.is_some() && second == op_of_main(&g, 2));
    assert_eq!(rt; u.next_reader(load, second), None);
    Ok(())
}

// The call reads r27, which nothing writes again; of the first load neither holds.
#[test]
fn ends_of_loads(rt: HostRuntime) -> Result<(), Fail> {
    let alloc = rt.alloc();
    let p = program(alloc)?;
    let g = lift_program(alloc, &p)?;
    let u = Uses::scratch(alloc, &g)?;
    let load = op_of_main(&g, 0).ok_or("no load")?;
    let called = op_of_main(&g, 3).ok_or("no load")?;
    assert!(rt; !u.read_by_last(load) && !u.reaches_end(load));
    assert!(rt; u.read_by_last(called) && u.reaches_end(called));
    assert_eq!(rt; u.next_reader(called, None), None);
    Ok(())
}
