//! The commands that are not refused.
ghost use Rattle.std.specs.Prelude.{◌≡◌, ◌<◌, false, IfErr, OnOk, OnErr, vec_len, vec_capacity};
ghost use Rattle.heap_core.specs.declared.fault.HeapFault.TheVariants.{OutOfMemory};
ghost use Rattle.heap_core.specs.Commands.{CanDo, Performs, Keeps, type_found};
ghost use Rattle.session_core.specs.Commands.{may_collect, is_early, is_middle, is_no_struct};
ghost use Rattle.session_core.specs.Finding.{found_for, source_for, of_births};
ghost use Rattle.session_core.specs.Standing.{KeepsFront};
ghost use Rattle.session_core.specs.Ends.{EndsCommand};

use crate::told::Looked;
use heap_core::{Dec, Found, Heap, HeapFault};
use store_model::{Command, Line};

/// Does a command that is not refused, with what was looked at for it, and appends its lines. Those of
/// the collections before a birth that the limit refuses are appended too. Where memory runs out,
/// the heap is spent or stands where whole blocks of collections led, and the old lines stand in
/// front.
pub(crate) fn do_command(
    heap: &mut Heap,
    command: &Command,
    looked: &Looked,
    out: &mut Vec<Line>,
) -> Result<(), HeapFault>
    requires can { CanDo heap.old command.now }
    requires found { looked.now.found ≡ found_for heap.old command.now }
    requires source { looked.now.source ≡ source_for heap.old command.now }
    requires info { looked.now.info ≡ of_births (type_found heap.old.parts) command.now }
    requires alive { heap.old.is_spent ≡ false }
    ensures { EndsCommand command.now heap.old heap.new out.old.items out.new.items result }
{
    match *command {
        Command::NewFixed { root, type_id } => heap.new_fixed_of(root, type_id, looked.info, out),
        Command::NewArray { root, type_id, len } => {
            heap.new_array_of(root, type_id, looked.info, len, out)
        }
        Command::NewWeak {
            root,
            type_id,
            target,
        } => heap.new_weak_of(root, type_id, looked.info, target, out),
        Command::Minor => heap.minor(out),
        Command::Step => heap.step(out),
        Command::Collect => heap.collect(out),
        _ => do_at_once(heap, command, looked, out),
    }
}

/// The same of a command that makes no collection. Where memory runs out, the heap stands where it stood.
fn do_at_once(
    heap: &mut Heap,
    command: &Command,
    looked: &Looked,
    out: &mut Vec<Line>,
) -> Result<(), HeapFault>
    requires can { CanDo heap.old command.now }
    requires found { looked.now.found ≡ found_for heap.old command.now }
    requires source { looked.now.source ≡ source_for heap.old command.now }
    requires alive { heap.old.is_spent ≡ false }
    requires rest { may_collect command.now ≡ false }
    ensures performs { OnOk result (Performs heap.old heap.new command.now out.old.items out.new.items) }
    ensures err { OnErr result (Keeps heap.old heap.new) }
    ensures err_out { OnErr result (KeepsFront out.old.items out.new.items) }
    ensures cause { IfErr result (λ fault. fault ≡ OutOfMemory) }
{
    out.reserve(1)?;
    on_objects(heap, command, looked, out)
}

/// The same where there is room for the one line that such a command prints at most.
fn on_objects(
    heap: &mut Heap,
    command: &Command,
    looked: &Looked,
    out: &mut Vec<Line>,
) -> Result<(), HeapFault>
    requires can { CanDo heap.old command.now }
    requires found { looked.now.found ≡ found_for heap.old command.now }
    requires source { looked.now.source ≡ source_for heap.old command.now }
    requires alive { heap.old.is_spent ≡ false }
    requires room { vec_len out.old < vec_capacity out.old }
    requires rest { may_collect command.now ≡ false }
    ensures performs { OnOk result (Performs heap.old heap.new command.now out.old.items out.new.items) }
    ensures err { OnErr result (Keeps heap.old heap.new) }
    ensures err_out { OnErr result (KeepsFront out.old.items out.new.items) }
    ensures cause { IfErr result (λ fault. fault ≡ OutOfMemory) }
{
    match *command {
        Command::Put { root, item, value } => heap.put_found(root, looked.found, item, value),
        Command::Get { root, item } => {
            let value = heap.get_found(root, looked.found, item)?;
            out.push_reserved(Line::Got { value });
            Ok(())
        }
        Command::Link { root, item, from } => heap.link_found(root, looked.found, item, from),
        Command::Load { to, root, item } => {
            let birth = heap.load_found(to, root, looked.found, item)?;
            out.push_reserved(Line::Loaded { birth });
            Ok(())
        }
        Command::CopyRefs {
            root,
            item,
            from,
            from_item,
            count,
        } => heap.copy_refs_found(
            root,
            looked.found,
            item,
            from,
            looked.source,
            from_item,
            count,
        ),
        Command::MoveRoot { to, from } => heap.move_root(to, from),
        Command::DropRoot { root } => heap.drop_root(root),
        Command::Same { a, b } => {
            let yes = heap.same(a, b)?;
            out.push_reserved(Line::SameAs { yes });
            Ok(())
        }
        Command::Used => {
            let (kept, husks) = heap.used()?;
            out.push_reserved(Line::UsedIs { kept, husks });
            Ok(())
        }
        _ => on_identity(heap, command, looked.found, out),
    }
}

/// The same of identities, of where objects are, and of pins.
fn on_identity(
    heap: &mut Heap,
    command: &Command,
    found: Option<Found>,
    out: &mut Vec<Line>,
) -> Result<(), HeapFault>
    requires can { CanDo heap.old command.now }
    requires found { found ≡ found_for heap.old command.now }
    requires alive { heap.old.is_spent ≡ false }
    requires room { vec_len out.old < vec_capacity out.old }
    requires rest { is_early command.now ≡ false }
    ensures performs { OnOk result (Performs heap.old heap.new command.now out.old.items out.new.items) }
    ensures err { OnErr result (Keeps heap.old heap.new) }
    ensures err_out { OnErr result (KeepsFront out.old.items out.new.items) }
    ensures cause { IfErr result (λ fault. fault ≡ OutOfMemory) }
{
    match *command {
        Command::Ident { root } => {
            let place = heap.identity(root)?;
            out.push_reserved(Line::IdentIs { place });
            Ok(())
        }
        Command::Hash { root } => {
            let value = heap.hash(root)?;
            out.push_reserved(Line::HashIs { value });
            Ok(())
        }
        Command::Place { root } => {
            let place = heap.where_is(root)?;
            out.push_reserved(Line::PlaceIs { place });
            Ok(())
        }
        Command::Pin { root } => {
            let yes = heap.pin(root)?;
            out.push_reserved(Line::PinIs { yes });
            Ok(())
        }
        Command::Unpin { root } => heap.unpin(root),
        _ => on_finalizers(heap, command, found, out),
    }
}

/// The same of targets of weak objects, of registrations and of queues.
fn on_finalizers(
    heap: &mut Heap,
    command: &Command,
    found: Option<Found>,
    out: &mut Vec<Line>,
) -> Result<(), HeapFault>
    requires can { CanDo heap.old command.now }
    requires found { found ≡ found_for heap.old command.now }
    requires alive { heap.old.is_spent ≡ false }
    requires room { vec_len out.old < vec_capacity out.old }
    requires rest { is_middle command.now ≡ false }
    ensures performs { OnOk result (Performs heap.old heap.new command.now out.old.items out.new.items) }
    ensures err { OnErr result (Keeps heap.old heap.new) }
    ensures err_out { OnErr result (KeepsFront out.old.items out.new.items) }
    ensures cause { IfErr result (λ fault. fault ≡ OutOfMemory) }
{
    match *command {
        Command::Deref { to, root } => {
            let birth = heap.deref_found(to, root, found)?;
            out.push_reserved(Line::Derefed { birth });
            Ok(())
        }
        Command::Register { root, queue } => heap.register(root, queue),
        Command::NextFinal { to, queue } => {
            let birth = heap.next_final(to, queue)?;
            out.push_reserved(Line::NextIs { birth });
            Ok(())
        }
        _ => on_structs(heap, command, out),
    }
}

/// The same of C structures.
fn on_structs(heap: &mut Heap, command: &Command, out: &mut Vec<Line>) -> Result<(), HeapFault>
    requires can { CanDo heap.old command.now }
    requires alive { heap.old.is_spent ≡ false }
    requires room { vec_len out.old < vec_capacity out.old }
    requires rest { is_no_struct command.now ≡ false }
    ensures performs { OnOk result (Performs heap.old heap.new command.now out.old.items out.new.items) }
    ensures err { OnErr result (Keeps heap.old heap.new) }
    ensures err_out { OnErr result (KeepsFront out.old.items out.new.items) }
    ensures cause { IfErr result (λ fault. fault ≡ OutOfMemory) }
{
    match *command {
        Command::MakeLink {
            p,
            number,
            root,
            light,
            own,
        } => heap.make_link(p, number, root, light, own),
        Command::Inc { number } => heap.inc(number),
        Command::Dec { number } => {
            match heap.dec(number)? {
                Dec::Lowered => {}
                Dec::Deallocated => out.push_reserved(Line::Dealloc { number }),
            }
            Ok(())
        }
        Command::Count { number } => {
            let value = heap.count(number)?;
            out.push_reserved(Line::CountIs { value });
            Ok(())
        }
        Command::FromObj { root } => {
            let number = heap.from_obj(root)?;
            out.push_reserved(Line::FromObjIs { number });
            Ok(())
        }
        Command::ToObj { to, number } => {
            let birth = heap.to_obj(to, number)?;
            out.push_reserved(Line::ToObjIs { birth });
            Ok(())
        }
        Command::NextDead => {
            let number = heap.next_dead()?;
            out.push_reserved(Line::NextDeadIs { number });
            Ok(())
        }
        _ => unreachable!(),
    }
}
