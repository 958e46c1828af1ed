//! Whole numbers and references of objects.
ghost use Rattle.std.specs.Prelude.{◌≡◌, [], ◌∷◌, IsTrue, IfOk, OnOk, OnErr, IfErr, Err};
ghost use Rattle.text_model.specs.declared.command.Command.TheVariants.{Put, Get, Link, CopyRefs};
ghost use Rattle.text_model.specs.declared.line.Line.TheVariants.{Got};
ghost use Rattle.heap_core.specs.declared.fault.HeapFault.TheVariants.{Spent};
ghost use Rattle.heap_core.specs.Commands.{AreReady, CanDo, PartsDo, Performs, done_unless, fault_of};
ghost use Rattle.heap_core.specs.Found.{found_of, found_in};

use crate::fault::HeapFault;
use crate::found::{Found, copy_refs, find, read_int, write_int, write_ref};
use crate::heap::{Heap, State};
use heap_parts::Parts;
use std::alloc::AllocError;

// The place of the first word outside the nursery.
const FIRST_OLD: u64 = 4_294_967_296;

impl Heap {
    /// Puts a whole number into an item of the object in a slot.
    pub fn put(&mut self, root: u32, i: u64, v: u64) -> Result<(), HeapFault>
        requires { CanDo self.old (Put root i v) }
        ensures performs { Performs self.old self.new (Put root i v) [] [] }
        ensures done { result ≡ done_unless self.old.is_spent }
        ensures spent { IsTrue self.old.is_spent → self.new ≡ self.old }
    {
        match &mut self.state {
            State::Started(parts) => {
                let found = find(parts, root);
                put_int(parts, root, found, i, v);
                Ok(())
            }
            State::Closed | State::Spent => Err(HeapFault::Spent),
        }
    }

    /// As `put`, with no further look at the object: `found` is what the call `found` answers for the slot now.
    pub fn put_found(
        &mut self,
        root: u32,
        found: Option<Found>,
        i: u64,
        v: u64,
    ) -> Result<(), HeapFault>
        requires can { CanDo self.old (Put root i v) }
        requires found { found ≡ found_in self.old root }
        ensures performs { Performs self.old self.new (Put root i v) [] [] }
        ensures done { result ≡ done_unless self.old.is_spent }
        ensures spent { IsTrue self.old.is_spent → self.new ≡ self.old }
    {
        match &mut self.state {
            State::Started(parts) => {
                put_int(parts, root, found, i, v);
                Ok(())
            }
            State::Closed | State::Spent => Err(HeapFault::Spent),
        }
    }

    /// A whole number of the object in a slot.
    pub fn get(&self, root: u32, i: u64) -> Result<u64, HeapFault>
        requires { CanDo self.now (Get root i) }
        ensures performs { IfOk result (λ v. Performs self.now self.now (Get root i) [] (Got v ∷ [])) }
        ensures spent { IsTrue self.now.is_spent → result ≡ Err Spent }
        ensures cause { OnErr result (IsTrue self.now.is_spent) }
    {
        match &self.state {
            State::Started(parts) => {
                let found = find(parts, root);
                Ok(get_int(parts, root, found, i))
            }
            State::Closed | State::Spent => Err(HeapFault::Spent),
        }
    }

    /// As `get`, with no further look at the object: `found` is what the call `found` answers for the slot now.
    pub fn get_found(&self, root: u32, found: Option<Found>, i: u64) -> Result<u64, HeapFault>
        requires can { CanDo self.now (Get root i) }
        requires found { found ≡ found_in self.now root }
        ensures performs { IfOk result (λ v. Performs self.now self.now (Get root i) [] (Got v ∷ [])) }
        ensures spent { IsTrue self.now.is_spent → result ≡ Err Spent }
        ensures cause { OnErr result (IsTrue self.now.is_spent) }
    {
        match &self.state {
            State::Started(parts) => Ok(get_int(parts, root, found, i)),
            State::Closed | State::Spent => Err(HeapFault::Spent),
        }
    }

    /// Puts what a slot holds, or nil, into an item of the object in another slot. Where that object is settled, the item
    /// is remembered for the next minor collection. After an error nothing is changed.
    pub fn link(&mut self, root: u32, i: u64, from: u32) -> Result<(), HeapFault>
        requires { CanDo self.old (Link root i from) }
        ensures performs { OnOk result (Performs self.old self.new (Link root i from) [] []) }
        ensures err { OnErr result (self.new ≡ self.old) }
        ensures cause { IfErr result (λ fault. fault ≡ fault_of self.old.is_spent) }
        ensures spent { IsTrue self.old.is_spent → result ≡ Err Spent }
    {
        match &mut self.state {
            State::Started(parts) => {
                let found = find(parts, root);
                Ok(link_ref(parts, root, found, i, from)?)
            }
            State::Closed | State::Spent => Err(HeapFault::Spent),
        }
    }

    /// As `link`, with no further look at the object that is written: `found` is what the call `found` answers for its slot now.
    /// After an error nothing is changed.
    pub fn link_found(
        &mut self,
        root: u32,
        found: Option<Found>,
        i: u64,
        from: u32,
    ) -> Result<(), HeapFault>
        requires can { CanDo self.old (Link root i from) }
        requires found { found ≡ found_in self.old root }
        ensures performs { OnOk result (Performs self.old self.new (Link root i from) [] []) }
        ensures err { OnErr result (self.new ≡ self.old) }
        ensures cause { IfErr result (λ fault. fault ≡ fault_of self.old.is_spent) }
        ensures spent { IsTrue self.old.is_spent → result ≡ Err Spent }
    {
        match &mut self.state {
            State::Started(parts) => Ok(link_ref(parts, root, found, i, from)?),
            State::Closed | State::Spent => Err(HeapFault::Spent),
        }
    }

    /// Copies `n` references of the object in the slot `from`, from item `j` on, to the items from `i` on of the object in the
    /// slot `root`. All are read as they were before, also where both are one object. Where the object that is written is
    /// settled, its items are remembered for the next minor collection. The cost is that of the copied words. After an
    /// error nothing is changed.
    pub fn copy_refs(
        &mut self,
        root: u32,
        i: u64,
        from: u32,
        j: u64,
        n: u64,
    ) -> Result<(), HeapFault>
        requires { CanDo self.old (CopyRefs root i from j n) }
        ensures performs { OnOk result (Performs self.old self.new (CopyRefs root i from j n) [] []) }
        ensures err { OnErr result (self.new ≡ self.old) }
        ensures cause { IfErr result (λ fault. fault ≡ fault_of self.old.is_spent) }
        ensures spent { IsTrue self.old.is_spent → result ≡ Err Spent }
    {
        match &mut self.state {
            State::Started(parts) => {
                let found = find(parts, root);
                let source = find(parts, from);
                Ok(copy_items(parts, root, found, i, from, source, j, n)?)
            }
            State::Closed | State::Spent => Err(HeapFault::Spent),
        }
    }

    /// As `copy_refs`, with no further look at the two objects: `found` and `source` are what the call `found` answers for their
    /// slots now. After an error nothing is changed.
    pub fn copy_refs_found(
        &mut self,
        root: u32,
        found: Option<Found>,
        i: u64,
        from: u32,
        source: Option<Found>,
        j: u64,
        n: u64,
    ) -> Result<(), HeapFault>
        requires can { CanDo self.old (CopyRefs root i from j n) }
        requires found { found ≡ found_in self.old root }
        requires source { source ≡ found_in self.old from }
        ensures performs { OnOk result (Performs self.old self.new (CopyRefs root i from j n) [] []) }
        ensures err { OnErr result (self.new ≡ self.old) }
        ensures cause { IfErr result (λ fault. fault ≡ fault_of self.old.is_spent) }
        ensures spent { IsTrue self.old.is_spent → result ≡ Err Spent }
    {
        match &mut self.state {
            State::Started(parts) => { Ok(copy_items(parts, root, found, i, from, source, j, n)?) }
            State::Closed | State::Spent => Err(HeapFault::Spent),
        }
    }
}

/// Puts a whole number into an item of the object in a slot, which was found before.
fn put_int(parts: &mut Parts, root: u32, found: Option<Found>, i: u64, v: u64)
    requires ready { AreReady parts.old (Put root i v) }
    requires found { found ≡ found_of parts.old root }
    ensures { PartsDo parts.old parts.new (Put root i v) [] }
{
    let Some(seen) = found else {
        unreachable!();
    };
    write_int(parts, seen, i, v);
}

/// A whole number of the object in a slot, which was found before.
fn get_int(parts: &Parts, root: u32, found: Option<Found>, i: u64) -> u64
    requires ready { AreReady parts.now (Get root i) }
    requires found { found ≡ found_of parts.now root }
    ensures { PartsDo parts.now parts.now (Get root i) (Got result ∷ []) }
{
    let Some(seen) = found else {
        unreachable!();
    };
    read_int(parts, seen, i)
}

/// Puts what a slot holds, or nil, into an item of the object in another slot, which was found before. The write barrier comes
/// first: a place in the nursery costs it one test.
fn link_ref(
    parts: &mut Parts,
    root: u32,
    found: Option<Found>,
    i: u64,
    from: u32,
) -> Result<(), AllocError>
    requires ready { AreReady parts.old (Link root i from) }
    requires found { found ≡ found_of parts.old root }
    ensures does { OnOk result (PartsDo parts.old parts.new (Link root i from) []) }
    ensures err { OnErr result (parts.new ≡ parts.old) }
{
    let Some(seen) = found else {
        unreachable!();
    };
    let to = parts.place(from);
    if seen.place < FIRST_OLD {
        write_ref(parts, seen, i, to);
        return Ok(());
    }
    parts.remember_items(seen.place, i, 1)?;
    write_ref(parts, seen, i, to);
    Ok(())
}

/// Copies references of the object in one slot to items of that in another, both of which were found before. The write barrier
/// comes first: a place in the nursery costs it one test.
fn copy_items(
    parts: &mut Parts,
    root: u32,
    found: Option<Found>,
    i: u64,
    from: u32,
    source: Option<Found>,
    j: u64,
    n: u64,
) -> Result<(), AllocError>
    requires ready { AreReady parts.old (CopyRefs root i from j n) }
    requires found { found ≡ found_of parts.old root }
    requires source { source ≡ found_of parts.old from }
    ensures does { OnOk result (PartsDo parts.old parts.new (CopyRefs root i from j n) []) }
    ensures err { OnErr result (parts.new ≡ parts.old) }
{
    let Some(target) = found else {
        unreachable!();
    };
    let Some(seen) = source else {
        unreachable!();
    };
    if target.place < FIRST_OLD {
        copy_refs(parts, target, i, seen, j, n);
        return Ok(());
    }
    parts.remember_items(target.place, i, n)?;
    copy_refs(parts, target, i, seen, j, n);
    Ok(())
}
