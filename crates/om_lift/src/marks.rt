// The places that a program names.
ghost use Rattle.std.specs.Prelude.{◌≡◌, ◌||◌, ◌<◌, ◌^◌, Bool, IfOk};
ghost use Rattle.std.specs.List.{list_any};
ghost use Rattle.om_value.specs.declared.value.Place.{Place as AnyPlace};
ghost use Rattle.om_value.specs.Same.{place_eq};
ghost use Rattle.om_prog.specs.View.{ProgramView, text_of, word_count};
ghost use Rattle.om_graph.specs.Whole.{program_roots};
ghost use Rattle.om_graph.specs.Landing.{loads_place, branches_to, some_role};
ghost use Rattle.om_lift.specs.Places.{AreMarks, AreMarksOf};

use crate::places::PlaceSet;
use om_io::NoMemory;
use om_prog::{Program, Role};
use om_value::{Place, Target};
use std::alloc::Global;

/// The places that roots and loads of addresses name, and those that branches go to.
#[derive(Drop)]
pub(crate) struct Marks {
    pub(crate) named: PlaceSet,
    pub(crate) branched: PlaceSet,
}

impl Marks {
    /// The marks of a program with these roots.
    pub(crate) fn of(alloc: Global, p: &Program, roots: &[Place]) -> Result<Marks, NoMemory>
        requires { roots.now ≡ program_roots p.now }
        ensures { IfOk result (λ m. AreMarksOf p.now m) }
    {
        let mut marks = Marks {
            named: PlaceSet::new(alloc, p)?,
            branched: PlaceSet::new(alloc, p)?,
        };
        mark_words(&mut marks, p);
        mark_roots(&mut marks, roots);
        Ok(marks)
    }

    // Marks what a word names.
    fn mark(&mut self, role: Role)
        ensures { (p : ProgramView) (named branched : AnyPlace → Bool) → AreMarks p named branched self.old
            → AreMarks p (λ q. named q || loads_place q role) (λ q. branched q || branches_to q role) self.new }
    {
        match role {
            Role::Lit(Target::Code(place)) => self.named.insert(place),
            Role::To(place) => self.branched.insert(place),
            _ => {}
        }
    }
}

// Marks the roots.
fn mark_roots(marks: &mut Marks, roots: &[Place])
    ensures { (p : ProgramView) (named branched : AnyPlace → Bool) → AreMarks p named branched marks.old
        → AreMarks p (λ q. list_any (λ r. place_eq r q) roots.now || named q) branched marks.new }
{
    for root in roots {
        marks.named.insert(*root);
    }
}

// Marks what the words of an object name.
fn mark_text(marks: &mut Marks, p: &Program, obj: u32)
    requires { word_count p.now obj < 2 ^ 30 }
    ensures { (named branched : AnyPlace → Bool) → AreMarks p.now named branched marks.old
        → AreMarks p.now
        (λ q. named q || list_any (λ i. loads_place q i.role) (text_of p.now obj))
        (λ q. branched q || list_any (λ i. branches_to q i.role) (text_of p.now obj)) marks.new }
{
    for word in 0..p.words(obj) {
        let at = Place { obj, off: 4 * word };
        if let Some(item) = p.item(at) {
            marks.mark(item.role);
        }
    }
}

// Marks what the words of all objects name.
fn mark_words(marks: &mut Marks, p: &Program)
    ensures { (named branched : AnyPlace → Bool) → AreMarks p.now named branched marks.old
        → AreMarks p.now
        (λ q. named q || some_role p.now (loads_place q))
        (λ q. branched q || some_role p.now (branches_to q)) marks.new }
{
    for obj in 0..p.objects() {
        mark_text(marks, p, obj);
    }
}
