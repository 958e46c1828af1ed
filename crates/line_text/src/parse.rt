//! The line that a text spells.

ghost use Rattle.std.specs.Prelude.{◌≡◌, IfSome, IfNone};
ghost use Rattle.text_model.specs.declared.line.Line.{Line};
ghost use Rattle.line_text.specs.Spelling.{Spells};
ghost use Rattle.line_text.specs.Reading.{line_of, number_line, structure_line, fixed_line, age_of, born_line, place_line, phase_of, step_line, unlinked_line, numbers_line, two_numbers_line, two_words_line, line_in, birth_forms, cut as cut_line};

use crate::words::{parse_number, split_word};
use text_model::{Fate, Line, LinkEnd, Phase};

// The greatest number of a structure.
const MAX_STRUCTURE: u64 = 65_535;

// The greatest own count of a structure.
const MAX_OWN: u64 = 4_294_967_295;

/// The line that the text, which has no LF at its end, spells: exactly where there is one, and then it is the only one.
/// It does not allocate.
pub fn parse_output_line(line: &[u8]) -> Option<Line>
    ensures spelled { IfSome result (λ l. Spells line.now l) }
    ensures only { IfSome result (λ l. (other : Line) → Spells line.now other → other ≡ l) }
    ensures none { IfNone result ((l : Line) → ¬ (Spells line.now l)) }
{
    read_line(line)
}

#[tactic(auto, unfolding(crate::specs::Reading::line_of))]
fn read_line(text: &[u8]) -> Option<Line>
    ensures { result ≡ line_of text.now }
{
    let (keyword, behind) = split_word(text)?;
    match split_word(behind) {
        Some((first, second)) => parse_two_words(keyword, first, second),
        None => match parse_number(behind) {
            Some(number) => parse_number_line(keyword, number),
            None => parse_fixed_line(text),
        },
    }
}

// A keyword and a number.
#[tactic(auto, unfolding(crate::specs::Reading::number_line))]
fn parse_number_line(keyword: &[u8], n: u64) -> Option<Line>
    ensures { result ≡ number_line keyword.now n }
{
    if keyword == b"got".as_slice() {
        Some(Line::Got { value: n })
    } else if keyword == b"id".as_slice() {
        Some(Line::IdentIs { place: n })
    } else if keyword == b"hash".as_slice() {
        Some(Line::HashIs { value: n })
    } else if keyword == b"count".as_slice() {
        Some(Line::CountIs { value: n })
    } else if keyword == b"cleared".as_slice() {
        Some(Line::Cleared { birth: n })
    } else if keyword == b"destroyed".as_slice() {
        Some(Line::Destroyed { birth: n })
    } else if keyword == b"visited".as_slice() {
        Some(Line::Visited { birth: n })
    } else if keyword == b"kept".as_slice() {
        Some(Line::Kept { birth: n })
    } else if keyword == b"freed".as_slice() {
        Some(Line::Freed { birth: n })
    } else if keyword == b"threshold".as_slice() {
        Some(Line::ThresholdIs { words: n })
    } else {
        parse_birth_line(keyword, n)
    }
}

// A keyword and a birth, where another line has `nil` behind the keyword.
fn parse_birth_line(keyword: &[u8], n: u64) -> Option<Line>
    ensures { result ≡ line_in birth_forms keyword.now n (structure_line keyword.now n) }
{
    let birth = Some(n);
    if keyword == b"loaded".as_slice() {
        Some(Line::Loaded { birth })
    } else if keyword == b"deref".as_slice() {
        Some(Line::Derefed { birth })
    } else if keyword == b"next".as_slice() {
        Some(Line::NextIs { birth })
    } else if keyword == b"toobj".as_slice() {
        Some(Line::ToObjIs { birth })
    } else {
        parse_structure_line(keyword, n)
    }
}

// A keyword and a structure's number.
#[tactic(auto, unfolding(crate::specs::Reading::structure_line))]
fn parse_structure_line(keyword: &[u8], n: u64) -> Option<Line>
    ensures { result ≡ structure_line keyword.now n }
{
    if n > MAX_STRUCTURE {
        return None;
    }
    let number = n as u32;
    if keyword == b"fromobj".as_slice() {
        Some(Line::FromObjIs {
            number: Some(number),
        })
    } else if keyword == b"nextdead".as_slice() {
        Some(Line::NextDeadIs {
            number: Some(number),
        })
    } else if keyword == b"dealloc".as_slice() {
        Some(Line::Dealloc { number })
    } else if keyword == b"pending".as_slice() {
        Some(cut(Fate::Pending, number))
    } else if keyword == b"released".as_slice() {
        Some(cut(Fate::Released, number))
    } else {
        None
    }
}

// The end of a link that leaves no own count.
fn cut(fate: Fate, number: u32) -> Line
    ensures { result ≡ cut_line fate number }
{
    Line::LinkCut {
        end: LinkEnd {
            number,
            own: 0,
            fate,
        },
    }
}

// A text without a number, but for those of a step.
#[tactic(auto, unfolding(crate::specs::Reading::fixed_line))]
fn parse_fixed_line(text: &[u8]) -> Option<Line>
    ensures { result ≡ fixed_line text.now }
{
    if text == b"loaded nil".as_slice() {
        Some(Line::Loaded { birth: None })
    } else if text == b"same yes".as_slice() {
        Some(Line::SameAs { yes: true })
    } else if text == b"same no".as_slice() {
        Some(Line::SameAs { yes: false })
    } else if text == b"where young".as_slice() {
        Some(Line::PlaceIs { place: None })
    } else if text == b"pin yes".as_slice() {
        Some(Line::PinIs { yes: true })
    } else if text == b"pin no".as_slice() {
        Some(Line::PinIs { yes: false })
    } else if text == b"deref nil".as_slice() {
        Some(Line::Derefed { birth: None })
    } else if text == b"next nil".as_slice() {
        Some(Line::NextIs { birth: None })
    } else if text == b"fromobj none".as_slice() {
        Some(Line::FromObjIs { number: None })
    } else if text == b"toobj nil".as_slice() {
        Some(Line::ToObjIs { birth: None })
    } else if text == b"nextdead none".as_slice() {
        Some(Line::NextDeadIs { number: None })
    } else {
        None
    }
}

// A keyword and two words.
#[tactic(auto, unfolding(crate::specs::Reading::two_words_line))]
fn parse_two_words(keyword: &[u8], first: &[u8], second: &[u8]) -> Option<Line>
    ensures { result ≡ two_words_line keyword.now first.now second.now }
{
    if keyword == b"new".as_slice() {
        parse_born(first, second)
    } else if keyword == b"where".as_slice() {
        parse_place(first, second)
    } else if keyword == b"step".as_slice() {
        parse_step(first, second)
    } else {
        parse_two_numbers(keyword, first, second)
    }
}

#[tactic(auto, unfolding(crate::specs::Reading::born_line))]
fn parse_born(first: &[u8], second: &[u8]) -> Option<Line>
    ensures { result ≡ born_line first.now second.now }
{
    let birth = parse_number(first)?;
    let old = parse_age(second)?;
    Some(Line::Born { birth, old })
}

// Whether the word is `old`, where it is that or `young`.
fn parse_age(word: &[u8]) -> Option<bool>
    ensures { result ≡ age_of word.now }
{
    if word == b"old".as_slice() {
        Some(true)
    } else if word == b"young".as_slice() {
        Some(false)
    } else {
        None
    }
}

#[tactic(auto, unfolding(crate::specs::Reading::place_line))]
fn parse_place(first: &[u8], second: &[u8]) -> Option<Line>
    ensures { result ≡ place_line first.now second.now }
{
    if first != b"old".as_slice() {
        return None;
    }
    let place = parse_number(second)?;
    Some(Line::PlaceIs { place: Some(place) })
}

#[tactic(auto, unfolding(crate::specs::Reading::step_line))]
fn parse_step(first: &[u8], second: &[u8]) -> Option<Line>
    ensures { result ≡ step_line first.now second.now }
{
    let from = parse_phase(first)?;
    let to = parse_phase(second)?;
    Some(Line::Stepped { from, to })
}

fn parse_phase(word: &[u8]) -> Option<Phase>
    ensures { result ≡ phase_of word.now }
{
    if word == b"scanning".as_slice() {
        Some(Phase::Scanning)
    } else if word == b"marking".as_slice() {
        Some(Phase::Marking)
    } else if word == b"sweeping".as_slice() {
        Some(Phase::Sweeping)
    } else if word == b"finalizing".as_slice() {
        Some(Phase::Finalizing)
    } else {
        None
    }
}

#[tactic(auto, unfolding(crate::specs::Reading::two_numbers_line))]
fn parse_two_numbers(keyword: &[u8], first: &[u8], second: &[u8]) -> Option<Line>
    ensures { result ≡ two_numbers_line keyword.now first.now second.now }
{
    let a = parse_number(first)?;
    let b = parse_number(second)?;
    parse_numbers_line(keyword, a, b)
}

// A keyword and two numbers.
#[tactic(auto, unfolding(crate::specs::Reading::numbers_line))]
fn parse_numbers_line(keyword: &[u8], a: u64, b: u64) -> Option<Line>
    ensures { result ≡ numbers_line keyword.now a b }
{
    if keyword == b"used".as_slice() {
        Some(Line::UsedIs { kept: a, husks: b })
    } else if keyword == b"minor".as_slice() {
        Some(Line::MinorDone {
            settled: a,
            vanished: b,
        })
    } else if keyword == b"queued".as_slice() {
        Some(Line::Queued { birth: a, queue: b })
    } else if keyword == b"unlinked".as_slice() {
        parse_unlinked(a, b)
    } else {
        None
    }
}

// A structure's number and its own count.
#[tactic(auto, unfolding(crate::specs::Reading::unlinked_line))]
fn parse_unlinked(number: u64, own: u64) -> Option<Line>
    ensures { result ≡ unlinked_line number own }
{
    if number > MAX_STRUCTURE {
        return None;
    }
    if own > MAX_OWN {
        return None;
    }
    Some(Line::LinkCut {
        end: LinkEnd {
            number: number as u32,
            own,
            fate: Fate::Unlinked,
        },
    })
}
