//! What is counted of a transcript.
ghost use Rattle.std.specs.Prelude.{◌≡◌, [], IfSome};
ghost use Rattle.replay_bench.specs.Summary.{is_birth, is_minor, ends_cycle, how_many, tally_of, tally_plus, commands_of};

use store_model::{Item, Line, Phase};

/// What is counted of a transcript: commands, lines, births, minor collections, and ends of cycles of major collections.
#[derive(Clone, Copy)]
pub(crate) struct Tally {
    pub(crate) commands: u64,
    pub(crate) lines: u64,
    pub(crate) births: u64,
    pub(crate) minors: u64,
    pub(crate) cycles: u64,
}

impl Tally {
    /// Nothing is counted yet.
    pub(crate) fn new() -> Tally
        ensures { result ≡ tally_of [] }
    {
        Tally {
            commands: 0,
            lines: 0,
            births: 0,
            minors: 0,
            cycles: 0,
        }
    }

    /// The counts with those of an item and its lines; none where one of them has more than 64 bits.
    pub(crate) fn plus(self, item: &Item, lines: &[Line]) -> Option<Tally>
        ensures { IfSome result (λ more. more ≡ tally_plus self (commands_of item.now) lines.now) }
    {
        Some(Tally {
            commands: self.commands.checked_add(commands_of(item))?,
            lines: self.lines.checked_add(lines.len() as u64)?,
            births: self.births.checked_add(births_in(lines))?,
            minors: self.minors.checked_add(minors_in(lines))?,
            cycles: self.cycles.checked_add(cycles_in(lines))?,
        })
    }
}

/// How many commands an item is.
fn commands_of(item: &Item) -> u64
    ensures { result ≡ commands_of item.now }
{
    match item {
        Item::Command(_) => 1,
        Item::Blank | Item::Setting { .. } | Item::TypeDef { .. } => 0,
    }
}

/// How many births lines tell.
fn births_in(lines: &[Line]) -> u64
    ensures { result ≡ how_many is_birth lines.now }
{
    lines.iter().filter(|line| is_birth(line)).count() as u64
}

/// How many minor collections lines tell.
fn minors_in(lines: &[Line]) -> u64
    ensures { result ≡ how_many is_minor lines.now }
{
    lines.iter().filter(|line| is_minor(line)).count() as u64
}

/// How many ends of cycles lines tell.
fn cycles_in(lines: &[Line]) -> u64
    ensures { result ≡ how_many ends_cycle lines.now }
{
    lines.iter().filter(|line| ends_cycle(line)).count() as u64
}

fn is_birth(line: &Line) -> bool
    ensures { result ≡ is_birth line.now }
{
    matches!(line, Line::Born { .. })
}

fn is_minor(line: &Line) -> bool
    ensures { result ≡ is_minor line.now }
{
    matches!(line, Line::MinorDone { .. })
}

/// Whether a cycle of major collections ends.
fn ends_cycle(line: &Line) -> bool
    ensures { result ≡ ends_cycle line.now }
{
    matches!(
        line,
        Line::Stepped {
            from: Phase::Finalizing,
            to: Phase::Scanning
        }
    )
}
