//! Commands that collect.
ghost use Rattle.std.specs.Prelude.{◌≡◌, IsTrue, OnOk, OnErr, IfErr, Err};
ghost use Rattle.text_model.specs.declared.command.Command.TheVariants.{Minor, Step, Collect};
ghost use Rattle.heap_core.specs.declared.fault.HeapFault.TheVariants.{Spent};
ghost use Rattle.heap_core.specs.Heap.{spent_heap};
ghost use Rattle.heap_core.specs.Commands.{CanDo, Performs, fault_of};
ghost use Rattle.heap_core.specs.HeapBirths.{EndsCall, EndsBirthCall};
ghost use Rattle.heap_core.specs.Retained.{HeapUndergoes, CollectingWhole};

use crate::collecting::{Collector, collect_all, collect_minor, collect_step};
use crate::fault::HeapFault;
use crate::heap::{Heap, State};
use heap_parts::Parts;
use std::alloc::AllocError;
use text_model::Line;

impl Heap {
    /// A minor collection, whose lines are appended. The error is out of memory: the heap is spent then, and no line is there.
    pub fn minor(&mut self, out: &mut Vec<Line>) -> Result<(), HeapFault>
        requires { CanDo self.old Minor }
        ensures performs { OnOk result (Performs self.old self.new Minor out.old.items out.new.items) }
        ensures err { OnErr result (self.new ≡ spent_heap) }
        ensures err_out { OnErr result (out.new.items ≡ out.old.items) }
        ensures cause { IfErr result (λ fault. fault ≡ fault_of self.old.is_spent) }
        ensures spent { IsTrue self.old.is_spent → result ≡ Err Spent }
    {
        match &mut self.state {
            State::Started(parts) => {
                let collector = lists_of(parts, &mut self.collector);
                let ended = collect_minor(parts, collector, out);
                self.end(ended)
            }
            State::Closed | State::Spent => Err(HeapFault::Spent),
        }
    }

    /// A minor collection and a major step of the phase that runs, whatever the threshold is. The lines of both are appended.
    /// The error is out of memory: the heap is spent then, and no line is there.
    pub fn step(&mut self, out: &mut Vec<Line>) -> Result<(), HeapFault>
        requires { CanDo self.old Step }
        ensures performs { OnOk result (Performs self.old self.new Step out.old.items out.new.items) }
        ensures err { OnErr result (self.new ≡ spent_heap) }
        ensures err_out { OnErr result (out.new.items ≡ out.old.items) }
        ensures cause { IfErr result (λ fault. fault ≡ fault_of self.old.is_spent) }
        ensures spent { IsTrue self.old.is_spent → result ≡ Err Spent }
    {
        match &mut self.state {
            State::Started(parts) => {
                let collector = lists_of(parts, &mut self.collector);
                let ended = collect_step(parts, collector, out);
                self.end(ended)
            }
            State::Closed | State::Spent => Err(HeapFault::Spent),
        }
    }

    /// A whole collection: such blocks until a cycle ends, and a whole cycle more where one ran before. The lines are appended.
    /// Afterwards just those objects are kept that were retained before, and its steps are at most `most_steps`. The error is out
    /// of memory: the heap is spent then, and no line is there.
    pub fn collect(&mut self, out: &mut Vec<Line>) -> Result<(), HeapFault>
        requires { CanDo self.old Collect }
        ensures performs { OnOk result (Performs self.old self.new Collect out.old.items out.new.items) }
        ensures retained { OnOk result (HeapUndergoes CollectingWhole self.old self.new out.old.items out.new.items) }
        ensures err { OnErr result (self.new ≡ spent_heap) }
        ensures err_out { OnErr result (out.new.items ≡ out.old.items) }
        ensures cause { IfErr result (λ fault. fault ≡ fault_of self.old.is_spent) }
        ensures spent { IsTrue self.old.is_spent → result ≡ Err Spent }
    {
        match &mut self.state {
            State::Started(parts) => {
                let collector = lists_of(parts, &mut self.collector);
                let ended = collect_all(parts, collector, out);
                self.end(ended)
            }
            State::Closed | State::Spent => Err(HeapFault::Spent),
        }
    }

    /// How a collecting call ends: where memory ran out, the heap is spent.
    fn end(&mut self, ended: Result<(), AllocError>) -> Result<(), HeapFault>
        ensures { EndsCall ended self.old self.new result }
    {
        match ended {
            Ok(()) => Ok(()),
            Err(_) => {
                self.state = State::Spent;
                Err(HeapFault::OutOfMemory)
            }
        }
    }

    /// How the call of a birth ends: where memory ran out inside a collection, the heap is spent.
    pub(crate) fn end_birth(&mut self, ended: Result<(), HeapFault>) -> Result<(), HeapFault>
        ensures { EndsBirthCall ended self.old self.new result }
    {
        match ended {
            Ok(()) => Ok(()),
            Err(HeapFault::Spent) => {
                self.state = State::Spent;
                Err(HeapFault::OutOfMemory)
            }
            Err(HeapFault::OutOfMemory) => Err(HeapFault::OutOfMemory),
            Err(
                HeapFault::HeapLimit {
                    counted,
                    request,
                    limit,
                },
            ) => Err(HeapFault::HeapLimit {
                counted,
                request,
                limit,
            }),
        }
    }
}

/// The lists of collections, which are made where none are there yet.
pub(crate) fn lists_of<'a>(parts: &Parts, kept: &'a mut Option<Collector>) -> &'a mut Collector {
    let alloc = *parts.slots.allocator();
    kept.get_or_insert_with(|| Collector::new(alloc))
}
