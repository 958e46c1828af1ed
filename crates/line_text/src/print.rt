//! The text of a line, appended to a vector of bytes.

ghost use Rattle.std.specs.Prelude.{◌≡◌, ◌++◌, OnOk, OnErr, codes, decimal};
ghost use Rattle.std.specs.List.{All};
ghost use Rattle.text_model.specs.Text.{IsProper, words_text, line_text, lines_text, number_or, age_text, place_text, phase_text, end_text};
ghost use Rattle.text_model.specs.declared.line.Line.{Line};
ghost use Rattle.line_text.specs.Printing.{StartsWith};
ghost use Rattle.line_text.specs.Spelling.{IsSmall, IsInRange, IsLine};

use itoa::Buffer;
use std::alloc::AllocError;
use text_model::{Fate, Line, LinkEnd, Phase};

/// Appends the text of a line, with its LF. Where memory runs out, the old text stands, with part of the line behind it.
pub fn print_line(l: &Line, out: &mut Vec<u8>) -> Result<(), AllocError>
    requires { IsProper l.now }
    ensures ok { OnOk result (out.new.items ≡ out.old.items ++ line_text l.now) }
    ensures err { OnErr result (StartsWith out.new.items out.old.items) }
    ensures is_line { IsLine l.now }
    ensures one_spelling { (other : Line) → IsLine other → words_text other ≡ words_text l.now → other ≡ l.now }
{
    print_words(l, out)?;
    append(b"\n", out)
}

/// Appends the texts of lines, one after another. Where memory runs out, the old text stands, with part of theirs behind it.
pub fn print_lines(lines: &[Line], out: &mut Vec<u8>) -> Result<(), AllocError>
    requires { All IsProper lines.now }
    ensures ok { OnOk result (out.new.items ≡ out.old.items ++ lines_text lines.now) }
    ensures err { OnErr result (StartsWith out.new.items out.old.items) }
{
    for line in lines {
        print_line(line, out)?;
    }
    Ok(())
}

// Appends the text of a line, without its LF.
#[tactic(auto, unfolding(text_model::specs::Text::words_text, crate::specs::Spelling::IsInRange))]
fn print_words(l: &Line, out: &mut Vec<u8>) -> Result<(), AllocError>
    ensures ok { OnOk result (out.new.items ≡ out.old.items ++ words_text l.now) }
    ensures err { OnErr result (StartsWith out.new.items out.old.items) }
    ensures in_range { IsInRange l.now }
{
    match *l {
        Line::Born { birth, old } => append_new(birth, old, out),
        Line::Got { value } => append_number(b"got ", value, out),
        Line::Loaded { birth } => append_birth(b"loaded ", birth, out),
        Line::SameAs { yes } => append(if yes { b"same yes" } else { b"same no" }, out),
        Line::IdentIs { place } => append_number(b"id ", place, out),
        Line::HashIs { value } => append_number(b"hash ", value, out),
        Line::PlaceIs { place } => append_place(place, out),
        Line::PinIs { yes } => append(if yes { b"pin yes" } else { b"pin no" }, out),
        Line::Derefed { birth } => append_birth(b"deref ", birth, out),
        Line::NextIs { birth } => append_birth(b"next ", birth, out),
        Line::CountIs { value } => append_number(b"count ", value, out),
        Line::FromObjIs { number } => append_structure(b"fromobj ", number, out),
        Line::ToObjIs { birth } => append_birth(b"toobj ", birth, out),
        Line::NextDeadIs { number } => append_structure(b"nextdead ", number, out),
        Line::Dealloc { number } => append_number(b"dealloc ", u64::from(number), out),
        Line::UsedIs { kept, husks } => append_numbers(b"used ", kept, husks, out),
        Line::MinorDone { settled, vanished } => append_numbers(b"minor ", settled, vanished, out),
        Line::Cleared { birth } => append_number(b"cleared ", birth, out),
        Line::Destroyed { birth } => append_number(b"destroyed ", birth, out),
        Line::LinkCut { end } => append_end(end, out),
        Line::Stepped { from, to } => append_step(from, to, out),
        Line::Visited { birth } => append_number(b"visited ", birth, out),
        Line::Kept { birth } => append_number(b"kept ", birth, out),
        Line::Freed { birth } => append_number(b"freed ", birth, out),
        Line::Queued { birth, queue } => append_numbers(b"queued ", birth, queue, out),
        Line::ThresholdIs { words } => append_number(b"threshold ", words, out),
    }
}

fn append_new(birth: u64, old: bool, out: &mut Vec<u8>) -> Result<(), AllocError>
    ensures ok { OnOk result (out.new.items ≡ out.old.items ++ (codes "new " ++ (decimal birth ++ age_text old))) }
    ensures err { OnErr result (StartsWith out.new.items out.old.items) }
{
    append_number(b"new ", birth, out)?;
    append(if old { b" old" } else { b" young" }, out)
}

fn append_end(end: LinkEnd, out: &mut Vec<u8>) -> Result<(), AllocError>
    ensures ok { OnOk result (out.new.items ≡ out.old.items ++ end_text end.fate end.number end.own) }
    ensures err { OnErr result (StartsWith out.new.items out.old.items) }
{
    let number = u64::from(end.number);
    match end.fate {
        Fate::Unlinked => append_numbers(b"unlinked ", number, end.own, out),
        Fate::Pending => append_number(b"pending ", number, out),
        Fate::Released => append_number(b"released ", number, out),
    }
}

fn append_step(from: Phase, to: Phase, out: &mut Vec<u8>) -> Result<(), AllocError>
    ensures ok { OnOk result (out.new.items
        ≡ out.old.items ++ (codes "step " ++ (phase_text from ++ (codes " " ++ phase_text to)))) }
    ensures err { OnErr result (StartsWith out.new.items out.old.items) }
{
    append(b"step ", out)?;
    append(phase_name(from), out)?;
    append(b" ", out)?;
    append(phase_name(to), out)
}

fn phase_name(phase: Phase) -> &'static [u8]
    ensures { result.now ≡ phase_text phase }
{
    match phase {
        Phase::Scanning => b"scanning",
        Phase::Marking => b"marking",
        Phase::Sweeping => b"sweeping",
        Phase::Finalizing => b"finalizing",
    }
}

fn append_place(place: Option<u64>, out: &mut Vec<u8>) -> Result<(), AllocError>
    ensures ok { OnOk result (out.new.items ≡ out.old.items ++ (codes "where " ++ place_text place)) }
    ensures err { OnErr result (StartsWith out.new.items out.old.items) }
    ensures in_range { IsSmall place }
{
    match place {
        None => append(b"where young", out),
        Some(place) => append_number(b"where old ", place, out),
    }
}

// Appends the words in front and the birth, or `nil`.
fn append_birth(front: &[u8], birth: Option<u64>, out: &mut Vec<u8>) -> Result<(), AllocError>
    ensures ok { OnOk result (out.new.items ≡ out.old.items ++ (front.now ++ number_or (codes "nil") birth)) }
    ensures err { OnErr result (StartsWith out.new.items out.old.items) }
    ensures in_range { IsSmall birth }
{
    match birth {
        None => append_two_texts(front, b"nil", out),
        Some(birth) => append_number(front, birth, out),
    }
}

// Appends the words in front and the structure's number, or `none`.
fn append_structure(front: &[u8], number: Option<u32>, out: &mut Vec<u8>) -> Result<(), AllocError>
    ensures ok { OnOk result (out.new.items ≡ out.old.items ++ (front.now ++ number_or (codes "none") number)) }
    ensures err { OnErr result (StartsWith out.new.items out.old.items) }
{
    match number {
        None => append_two_texts(front, b"none", out),
        Some(number) => append_number(front, u64::from(number), out),
    }
}

fn append_two_texts(front: &[u8], back: &[u8], out: &mut Vec<u8>) -> Result<(), AllocError>
    ensures ok { OnOk result (out.new.items ≡ out.old.items ++ (front.now ++ back.now)) }
    ensures err { OnErr result (StartsWith out.new.items out.old.items) }
{
    append(front, out)?;
    append(back, out)
}

// Appends the words in front, and two numbers with a space between them.
fn append_numbers(
    front: &[u8],
    first: u64,
    second: u64,
    out: &mut Vec<u8>,
) -> Result<(), AllocError>
    ensures ok { OnOk result (out.new.items
        ≡ out.old.items ++ (front.now ++ (decimal first ++ (codes " " ++ decimal second)))) }
    ensures err { OnErr result (StartsWith out.new.items out.old.items) }
{
    append_number(front, first, out)?;
    append_number(b" ", second, out)
}

// Appends the words in front and the number.
fn append_number(front: &[u8], number: u64, out: &mut Vec<u8>) -> Result<(), AllocError>
    ensures ok { OnOk result (out.new.items ≡ out.old.items ++ (front.now ++ decimal number)) }
    ensures err { OnErr result (StartsWith out.new.items out.old.items) }
{
    append(front, out)?;
    append(Buffer::new().format(number).as_bytes(), out)
}

fn append(text: &[u8], out: &mut Vec<u8>) -> Result<(), AllocError>
    ensures ok { OnOk result (out.new.items ≡ out.old.items ++ text.now) }
    ensures err { OnErr result (StartsWith out.new.items out.old.items) }
{
    out.extend_from_slice(text)
}
