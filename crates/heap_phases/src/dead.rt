//! The lists of what is condemned at the end of marking.
ghost use Rattle.std.specs.Prelude.{◌≡◌, ◌+◌, ◌++◌, ◌<◌, ◌^◌, ℕ, List, IsTrue, OnOk, map, filter, not, sum_by};
ghost use Rattle.heap_space.specs.Extents.{Extent};
ghost use Rattle.heap_space.specs.Places.{has, word_at};
ghost use Rattle.object_header.specs.Words.{survives_sweep};
ghost use Rattle.old_space.specs.Headers.{HasHeaders, StandsWithHeaders};
ghost use Rattle.object_model.specs.ObjectWords.{info_at};
ghost use Rattle.object_view.specs.Views.{HasObject};
ghost use Rattle.heap_phases.specs.Ending.{AreDead, AreReadable, HoldObjects, AreDestroyed, AreHusks, places_in, birth_in, is_destroyed, is_dead_in};

use heap_space::Space;
use object_header::survives_sweep;
use object_view::view;
use old_space::Old;
use std::alloc::AllocError;
use std::collections::BTreeMap;
use type_table::TypeTable;

/// Lists the live blocks of condemned objects by rising place: those whose first word has neither the flag Visited nor the
/// flag Shadow.
pub(crate) fn list_dead(
    old_blocks: &Old,
    space: &Space,
    live: &mut Vec<(u64, u64)>,
    dead: &mut Vec<(u64, u64)>,
) -> Result<(), AllocError>
    requires { StandsWithHeaders old_blocks.now space.now }
    ensures { (blocks : List Extent) (waiting : List ℕ) → HasHeaders old_blocks.now space.now blocks waiting
        → OnOk result (AreDead space.now blocks dead.new.items) }
{
    live.clear();
    dead.clear();
    old_blocks.live_blocks(space, live)?;
    keep_dead(space, live, dead)
}

/// Appends those of the blocks that hold condemned objects.
fn keep_dead(
    space: &Space,
    live: &[(u64, u64)],
    dead: &mut Vec<(u64, u64)>,
) -> Result<(), AllocError>
    requires { AreReadable space.now live.now }
    ensures { OnOk result (dead.new.items ≡ dead.old.items ++ filter (is_dead_in space.now) live.now) }
{
    for block in live {
        if is_dead(space, block.0) {
            dead.push(*block)?;
        }
    }
    Ok(())
}

/// Whether the block at a place holds a condemned object: it was not visited, and it is no reserved home.
fn is_dead(space: &Space, place: u64) -> bool
    requires { IsTrue (has space.now.blocks place) }
    ensures { result ≡ not (survives_sweep (word_at space.now.blocks place)) }
{
    !survives_sweep(space.read(place))
}

/// Lists the places of the blocks.
pub(crate) fn list_places(blocks: &[(u64, u64)], places: &mut Vec<u64>) -> Result<(), AllocError>
    ensures { OnOk result (places.new.items ≡ places_in blocks.now) }
{
    places.clear();
    places.extend(blocks.iter().map(|block| block.0))
}

/// Lists the births of the objects in the blocks whose type has a destructor, in rising order.
pub(crate) fn list_destroyed(
    space: &Space,
    types: &TypeTable,
    blocks: &[(u64, u64)],
    births: &mut Vec<u64>,
) -> Result<(), AllocError>
    requires { HoldObjects space.now types.now blocks.now }
    ensures { OnOk result (AreDestroyed types.now space.now blocks.now births.new.items) }
{
    births.clear();
    keep_destroyed(space, types, blocks, births)?;
    births.sort_unstable();
    Ok(())
}

/// Appends the births of the objects in the blocks whose type has a destructor.
fn keep_destroyed(
    space: &Space,
    types: &TypeTable,
    blocks: &[(u64, u64)],
    births: &mut Vec<u64>,
) -> Result<(), AllocError>
    requires { HoldObjects space.now types.now blocks.now }
    ensures { OnOk result (births.new.items ≡ births.old.items
        ++ map (birth_in space.now) (filter (is_destroyed types.now space.now) blocks.now)) }
{
    for block in blocks {
        if has_destructor(space, types, block.0) {
            births.push(birth_at(space, types, block.0))?;
        }
    }
    Ok(())
}

/// The birth of the object at a place.
pub(crate) fn birth_at(space: &Space, types: &TypeTable, place: u64) -> u64
    requires { HasObject space.now types.now place }
    ensures { result ≡ word_at space.now.blocks (place + 1) }
{
    view(space, types, place).birth
}

/// Whether the type of the object at a place has a destructor.
fn has_destructor(space: &Space, types: &TypeTable, place: u64) -> bool
    requires { HasObject space.now types.now place }
    ensures { result ≡ (info_at types.now (word_at space.now.blocks) place).destructor }
{
    let v = view(space, types, place);
    types.get(v.type_id).unwrap().destructor
}

/// Makes the husks those of these blocks: the words of each, by the birth of its object.
pub(crate) fn list_husks(
    space: &Space,
    types: &TypeTable,
    blocks: &[(u64, u64)],
    husks: &mut BTreeMap<u64, u64>,
) -> Result<(), AllocError>
    requires { HoldObjects space.now types.now blocks.now }
    ensures { OnOk result (AreHusks space.now blocks.now husks.new.entries) }
{
    husks.clear();
    for block in blocks {
        husks.insert(birth_at(space, types, block.0), block.1)?;
    }
    Ok(())
}

/// The words of the blocks.
pub(crate) fn words_of(blocks: &[(u64, u64)]) -> u64
    requires { sum_by (λ x. x.1) blocks.now < 2 ^ 64 }
    ensures { result ≡ sum_by (λ x. x.1) blocks.now }
{
    blocks.iter().map(|block| block.1).sum()
}
