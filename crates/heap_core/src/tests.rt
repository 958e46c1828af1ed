//! The words of a heap are all that it keeps of its objects.
ghost use Rattle.std.specs.Prelude.{◌≡◌, ◌<◌, false, [], ◌∷◌, IfOk, OnOk};
ghost use Rattle.type_table.specs.declared.info.Shape.TheVariants.{Fixed};
ghost use Rattle.type_table.specs.Table.{with_value};
ghost use Rattle.text_model.specs.declared.command.Command.TheVariants.{Put, Link};
ghost use Rattle.store_model.specs.Store.{empty_store};
ghost use Rattle.heap_parts.specs.Parts.{place_in};
ghost use Rattle.heap_parts.specs.Effects.{HasObjectIn, layout_in, ref_place, with_word_at};
ghost use Rattle.heap_core.specs.Heap.{closed_heap};
ghost use Rattle.heap_core.specs.Commands.{AreReady, IsStanding, CanDo, PartsDo, Performs};
ghost use Rattle.heap_core.specs.TestStores.{Runs, CanRetype, pairs, newborns, linked, tight_settings, fixed_info, tight_types, tight_setup, two_old, left_old};

use super::*;
use crate::heap::State;
use heap_parts::Parts;
use heap_space::Space;
use object_model::Settings;
use object_view::{set_int, set_ref, view};
use std::alloc::{AllocError, Global};
use std::test::Fail;
use text_model::Line;
use type_table::{Shape, TypeFault, TypeInfo, TypeTable};

// The place of the first word outside the nursery.
const FIRST_OLD: u64 = 4_294_967_296;

// A table in which type 1 has one whole number and one reference.
fn table(alloc: Global) -> Result<TypeTable, TypeFault>
    ensures { IfOk result (λ types. types ≡ (1, record { shape = Fixed 1 1; destructor = false }) ∷ []) }
{
    let mut types = TypeTable::new(alloc).map_err(|_| TypeFault::OutOfMemory)?;
    types.add(
        1,
        TypeInfo {
            shape: Shape::Fixed { ints: 1, refs: 1 },
            destructor: false,
        },
    )?;
    Ok(types)
}

// Writes a whole number by the space alone.
fn int_by_words(parts: &mut Parts, root: u32, i: u64, n: u64)
    requires { AreReady parts.old (Put root i n) }
    ensures { PartsDo parts.old parts.new (Put root i n) [] }
{
    let place = parts.place(root);
    let v = view(&parts.space, &parts.types, place);
    set_int(&mut parts.space, v, place, i, n);
}

// Puts a place into a reference of the object in a slot by the space alone.
fn put_ref_word(parts: &mut Parts, root: u32, i: u64, to: u64)
    requires object { HasObjectIn parts.old root }
    requires item { i < (layout_in parts.old root).ref_count }
    ensures { parts.new ≡ with_word_at parts.old (ref_place parts.old root i) to }
{
    let place = parts.place(root);
    let v = view(&parts.space, &parts.types, place);
    set_ref(&mut parts.space, v, place, i, to);
}

// Writes a reference by the space alone. An item of an old object is remembered before.
fn ref_by_words(parts: &mut Parts, root: u32, i: u64, from: u32) -> Result<(), AllocError>
    requires { AreReady parts.old (Link root i from) }
    ensures { OnOk result (PartsDo parts.old parts.new (Link root i from) []) }
{
    let place = parts.place(root);
    let to = parts.place(from);
    if place < FIRST_OLD {
        put_ref_word(parts, root, i, to);
        return Ok(());
    }
    parts.remember_items(place, i, 1)?;
    put_ref_word(parts, root, i, to);
    Ok(())
}

fn write_int(heap: &mut Heap, root: u32, i: u64, n: u64) -> Result<(), HeapFault>
    requires { CanDo heap.old (Put root i n) }
    ensures { OnOk result (Performs heap.old heap.new (Put root i n) [] []) }
{
    match &mut heap.state {
        State::Started(parts) => {
            int_by_words(parts, root, i, n);
            Ok(())
        }
        State::Closed | State::Spent => Err(HeapFault::Spent),
    }
}

fn write_ref(heap: &mut Heap, root: u32, i: u64, from: u32) -> Result<(), HeapFault>
    requires { CanDo heap.old (Link root i from) }
    ensures { OnOk result (Performs heap.old heap.new (Link root i from) [] []) }
{
    match &mut heap.state {
        State::Started(parts) => Ok(ref_by_words(parts, root, i, from)?),
        State::Closed | State::Spent => Err(HeapFault::Spent),
    }
}

// Three objects in the first three slots.
fn bear_three(heap: &mut Heap, alloc: Global) -> Result<(), HeapFault>
    requires { Runs pairs heap.old (newborns 0) }
    ensures { OnOk result (Runs pairs heap.new (newborns 3)) }
{
    let mut out = Vec::new(alloc);
    heap.new_fixed(0, 1, &mut out)?;
    heap.new_fixed(1, 1, &mut out)?;
    heap.new_fixed(2, 1, &mut out)?;
    Ok(())
}

// The first of three objects refers to the second.
fn link_first(heap: &mut Heap, alloc: Global) -> Result<(), HeapFault>
    requires { Runs pairs heap.old (newborns 0) }
    ensures { OnOk result (Runs pairs heap.new linked) }
{
    bear_three(heap, alloc)?;
    heap.link(0, 0, 1)?;
    Ok(())
}

// What the heap answers after other words were written into its first object.
fn answers(heap: &mut Heap) -> Result<(u64, Option<u64>), HeapFault>
    requires { Runs pairs heap.old linked }
{
    write_int(heap, 0, 0, 77)?;
    write_ref(heap, 0, 0, 2)?;
    let number = heap.get(0, 0)?;
    let birth = heap.load(3, 0, 0)?;
    Ok((number, birth))
}

// Starts a heap with three objects, of which the first refers to the second, and asks it after other words were written.
fn play(heap: &mut Heap, alloc: Global) -> Result<(u64, Option<u64>), Fail>
    requires { heap.old ≡ closed_heap }
{
    let types = table(alloc)?;
    heap.start(alloc, &Settings::DEFAULT, types)?;
    link_first(heap, alloc)?;
    Ok(answers(heap)?)
}

// What a heap of its own answers.
fn answers_of_words(alloc: Global) -> Result<(u64, Option<u64>), Fail> {
    let mut heap = Heap::closed();
    play(&mut heap, alloc)
}

// What is written into the words by the space alone, each call of the heap finds: it keeps no second copy of the graph.
#[test]
fn words_are_the_heap(rt: HostRuntime) -> Result<(), Fail> {
    let (number, birth) = answers_of_words(rt.alloc())?;
    assert_eq!(rt; number, 77);
    assert_eq!(rt; birth, Some(3));
    Ok(())
}

// Objects of more than 8 words are old, and of more than 16 words large.
fn tight() -> Settings
    ensures { result ≡ tight_settings }
{
    Settings {
        young: 8,
        small: 16,
        ..Settings::DEFAULT
    }
}

// A table without types.
fn no_types(alloc: Global) -> Result<TypeTable, TypeFault>
    ensures { IfOk result (λ types. types ≡ []) }
{
    TypeTable::new(alloc).map_err(|_| TypeFault::OutOfMemory)
}

// Adds a type of so many whole numbers and references, without a destructor.
fn add_fixed(types: &mut TypeTable, id: u16, ints: u16, refs: u16) -> Result<(), TypeFault>
    ensures { OnOk result (types.new ≡ with_value types.old id (fixed_info ints refs)) }
{
    let info = TypeInfo {
        shape: Shape::Fixed { ints, refs },
        destructor: false,
    };
    types.add(id, info)
}

// Objects of types 3 and 6 are small and old, of 12 words, and those of type 4 large, of 20 words.
fn add_types(types: &mut TypeTable) -> Result<(), TypeFault>
    requires { types.old ≡ [] }
    ensures { OnOk result (types.new ≡ tight_types) }
{
    add_fixed(types, 3, 9, 1)?;
    add_fixed(types, 4, 17, 1)?;
    add_fixed(types, 6, 9, 1)
}

// A table of these types.
fn tight_table(alloc: Global) -> Result<TypeTable, TypeFault>
    ensures { IfOk result (λ types. types ≡ tight_types) }
{
    let mut types = no_types(alloc)?;
    add_types(&mut types)?;
    Ok(types)
}

// The word so far behind a place, 0 where there is none.
fn raw_word(space: &Space, place: u64, k: u64) -> u64 {
    let Some(at) = place.checked_add(k) else {
        return 0;
    };
    if space.has(at) {
        return space.read(at);
    }
    0
}

// A word of the object in a slot, as it lies in the space.
fn word_of(heap: &Heap, root: u32, k: u64) -> u64 {
    match &heap.state {
        State::Started(parts) => raw_word(&parts.space, parts.place(root), k),
        State::Closed | State::Spent => 0,
    }
}

// A small old object and a large one in the first two slots.
fn bear_old(heap: &mut Heap, alloc: Global) -> Result<(), HeapFault>
    requires { Runs tight_setup heap.old (empty_store tight_settings) }
    ensures { OnOk result (Runs tight_setup heap.new two_old) }
{
    let mut out = Vec::new(alloc);
    heap.new_fixed(0, 3, &mut out)?;
    heap.new_fixed(1, 4, &mut out)?;
    Ok(())
}

// What the heap answers after words of old objects were written.
fn old_answers(heap: &mut Heap) -> Result<(u64, Option<u64>), HeapFault>
    requires { Runs tight_setup heap.old two_old }
{
    write_int(heap, 1, 16, 77)?;
    write_ref(heap, 1, 0, 0)?;
    let number = heap.get(1, 16)?;
    let birth = heap.load(2, 1, 0)?;
    Ok((number, birth))
}

// Starts a heap in which objects of few words are old.
fn start_tight(heap: &mut Heap, alloc: Global) -> Result<(), Fail>
    requires { heap.old ≡ closed_heap }
    ensures { OnOk result (Runs tight_setup heap.new (empty_store tight_settings)) }
{
    let types = tight_table(alloc)?;
    heap.start(alloc, &tight(), types)?;
    Ok(())
}

fn words_answered(heap: &mut Heap, alloc: Global) -> Result<(u64, Option<u64>), Fail>
    requires { heap.old ≡ closed_heap }
{
    start_tight(heap, alloc)?;
    bear_old(heap, alloc)?;
    Ok(old_answers(heap)?)
}

// The first word of the object in a slot is another from then on.
fn write_header(parts: &mut Parts, root: u32, word: u64)
    requires { HasObjectIn parts.old root }
    ensures { parts.new ≡ with_word_at parts.old (place_in parts.old root) word }
{
    let place = parts.place(root);
    parts.space.write(place, word);
}

// The type of an object whose first word was written by the space alone.
fn type_by_words(parts: &mut Parts, root: u32, id: u16) -> u16
    requires { CanRetype parts.old root id }
{
    write_header(parts, root, u64::from(id));
    parts.type_of(root)
}

// The type of the first object before and after its first word was written.
fn types_of_first(heap: &mut Heap) -> Result<(u16, u16), HeapFault>
    requires { Runs tight_setup heap.old two_old }
{
    let before = heap.type_of(0);
    match &mut heap.state {
        State::Started(parts) => Ok((before, type_by_words(parts, 0, 6))),
        State::Closed | State::Spent => Err(HeapFault::Spent),
    }
}

// A third object, small and old. A word of the first alone leads to the second then, and none to the third.
fn leave_third(heap: &mut Heap, alloc: Global) -> Result<(), HeapFault>
    requires { Runs tight_setup heap.old two_old }
    ensures { OnOk result (Runs tight_setup heap.new left_old) }
{
    let mut out = Vec::new(alloc);
    heap.new_fixed(2, 3, &mut out)?;
    write_ref(heap, 0, 0, 1)?;
    heap.drop_root(1)?;
    heap.drop_root(2)?;
    Ok(())
}

// Appends the births of what these lines say was freed.
fn freed_births(lines: &[Line], births: &mut Vec<u64>) -> Result<(), AllocError> {
    for line in lines {
        if let Line::Freed { birth } = line {
            births.push(*birth)?;
        }
    }
    Ok(())
}

// A whole collection, and the births of what it freed.
fn collect_left(heap: &mut Heap, alloc: Global, births: &mut Vec<u64>) -> Result<(), HeapFault>
    requires { Runs tight_setup heap.old left_old }
    ensures { OnOk result (IsStanding heap.new) }
{
    let mut out = Vec::new(alloc);
    heap.collect(&mut out)?;
    freed_births(&out, births)?;
    Ok(())
}

// A word of the first object, and the births of what a collection frees.
fn words_collected(heap: &mut Heap, alloc: Global, births: &mut Vec<u64>) -> Result<u64, HeapFault>
    requires { Runs tight_setup heap.old left_old }
{
    let word = word_of(heap, 0, 11);
    collect_left(heap, alloc, births)?;
    Ok(word)
}

// A heap with these three objects.
fn start_left(heap: &mut Heap, alloc: Global) -> Result<(), Fail>
    requires { heap.old ≡ closed_heap }
    ensures { OnOk result (Runs tight_setup heap.new left_old) }
{
    start_tight(heap, alloc)?;
    bear_old(heap, alloc)?;
    leave_third(heap, alloc)?;
    Ok(())
}

fn play_left(heap: &mut Heap, alloc: Global, births: &mut Vec<u64>) -> Result<u64, Fail>
    requires { heap.old ≡ closed_heap }
{
    start_left(heap, alloc)?;
    Ok(words_collected(heap, alloc, births)?)
}

// Starts a heap with one object, and asks for its type.
fn play_types(heap: &mut Heap, alloc: Global) -> Result<(u16, u16), Fail>
    requires { heap.old ≡ closed_heap }
{
    start_tight(heap, alloc)?;
    bear_old(heap, alloc)?;
    Ok(types_of_first(heap)?)
}

// What a heap of its own answers of its old objects.
fn old_answers_of_words(alloc: Global) -> Result<(u64, Option<u64>), Fail> {
    let mut heap = Heap::closed();
    words_answered(&mut heap, alloc)
}

// The types that a heap of its own tells.
fn types_of_words(alloc: Global) -> Result<(u16, u16), Fail> {
    let mut heap = Heap::closed();
    play_types(&mut heap, alloc)
}

// What a heap of its own frees.
fn collect_own(alloc: Global, births: &mut Vec<u64>) -> Result<u64, Fail> {
    let mut heap = Heap::closed();
    play_left(&mut heap, alloc, births)
}

// And what is written into their words the heap finds.
#[test]
fn old_words_are_the_heap(rt: HostRuntime) -> Result<(), Fail> {
    let (number, birth) = old_answers_of_words(rt.alloc())?;
    assert_eq!(rt; number, 77);
    assert_eq!(rt; birth, Some(1));
    Ok(())
}

// The type of an object stands in its first word alone.
#[test]
fn header_is_the_type(rt: HostRuntime) -> Result<(), Fail> {
    let (before, after) = types_of_words(rt.alloc())?;
    assert_eq!(rt; before, 3);
    assert_eq!(rt; after, 6);
    Ok(())
}

// A collection frees just the settled object to which no slot and no word leads, the third.
#[test]
fn lost_is_freed(rt: HostRuntime) -> Result<(), Fail> {
    let mut births = Vec::new(rt.alloc());
    let word = collect_own(rt.alloc(), &mut births)?;
    // the second, at 2^40
    assert_eq!(rt; word, 1_099_511_627_776);
    assert_eq!(rt; births.as_slice(), [3].as_slice());
    Ok(())
}
