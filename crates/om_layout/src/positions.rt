// The numbers of image words at all places.
ghost use Rattle.std.specs.Prelude.{◌≡◌, ◌+◌, ◌^◌, ◌<◌, ◌≤◌, IfOk, List, length, map, slice_get, Some, ℕ};
ghost use Rattle.om_value.specs.declared.value.Place.{Place as AnyPlace};
ghost use Rattle.om_prog.specs.Act.{Word};
ghost use Rattle.om_layout.specs.Order.{words_before};
ghost use Rattle.om_layout.specs.Placing.{AreFirsts, AreTextWords, HasPositions};

use om_io::NoMemory;
use om_value::Place;
use std::alloc::Global;

// The number of places before each object.
pub(crate) fn starts_of(alloc: Global, counts: &[u32]) -> Result<Vec<usize>, NoMemory>
    requires { length counts.now ≤ 256 }
    ensures { IfOk result (λ v. AreFirsts counts.now v.items) }
{
    let mut starts = Vec::new(alloc);
    let mut start: usize = 0;
    for count in counts {
        starts.push(start)?;
        start += *count as usize + 1;
    }
    Ok(starts)
}

// Puts the positions of an object's places behind the others. `before` words stand before them; the number of those that
// stand before the places of the next object.
fn add_text(
    positions: &mut Vec<u32>,
    places: &[Place],
    obj: u32,
    count: u32,
    before: usize,
) -> Result<usize, NoMemory>
    requires places { length places.now < 2 ^ 32 }
    requires count { count < 2 ^ 30 }
    requires before { before ≤ length places.now }
    ensures bound { IfOk result (λ n. n ≤ length places.now) }
    ensures next { IfOk result (λ n. (counts : List ℕ) (ws : List Word) → AreTextWords counts ws → places.now ≡ map (λ w. w.at) ws
        → slice_get counts obj ≡ Some count → before ≡ words_before ws (record { obj = obj; off = 0 })
        → n ≡ words_before ws (record { obj = obj + 1; off = 0 })) }
    ensures placed { IfOk result (λ n. (counts : List ℕ) (ws : List Word) → AreTextWords counts ws → places.now ≡ map (λ w. w.at) ws
        → slice_get counts obj ≡ Some count → before ≡ words_before ws (record { obj = obj; off = 0 })
        → HasPositions counts ws obj 0 positions.old.items → HasPositions counts ws (obj + 1) 0 positions.new.items) }
{
    let mut next = before;
    for word in 0..count + 1 {
        let at = Place { obj, off: 4 * word };
        positions.push(next as u32)?;
        if next < places.len() && places[next] == at {
            next += 1;
        }
    }
    Ok(next)
}

// The positions of all places, where the words of a graph stand at these.
pub(crate) fn positions_of(
    alloc: Global,
    counts: &[u32],
    places: &[Place],
) -> Result<Vec<u32>, NoMemory>
    requires objects { length counts.now ≤ 256 }
    requires counts { (i n : ℕ) → slice_get counts.now i ≡ Some n → n < 2 ^ 30 }
    requires places { length places.now < 2 ^ 32 }
    ensures { IfOk result (λ v. (ws : List Word) → AreTextWords counts.now ws → places.now ≡ map (λ w. w.at) ws
        → HasPositions counts.now ws (length counts.now) 0 v.items) }
{
    let mut positions = Vec::new(alloc);
    let mut next = 0;
    for i in 0..counts.len() {
        next = add_text(&mut positions, places, i as u32, counts[i], next)?;
    }
    Ok(positions)
}
