//! Checks that refuse a command, each over just what it looks at.
ghost use Rattle.std.specs.Prelude.{◌≡◌, [], ◌∷◌, ◌++◌, nat_le};
ghost use Rattle.object_model.specs.Shapes.{holds_refs, is_fixed_shape, is_array_shape};
ghost use Rattle.text_model.specs.declared.item.Reason.TheVariants as reasons;
ghost use Rattle.store_model.specs.Checks.{first_reason, slots_checks, born_checks, int_checks, ref_checks, copy_checks};
ghost use Rattle.store_model.specs.StructChecks.{weak_checks, queue_checks, link_checks, struct_checks, inc_checks, dec_checks};

use store_model::{Kind, Reason, Shape, StructState, TypeInfo};

/// Of one slot that a command names, where there are so many.
pub(crate) fn slot_refusal(roots: u64, root: u32) -> Option<Reason>
    ensures { result ≡ first_reason (slots_checks roots (root ∷ [])) }
{
    if u64::from(root) >= roots {
        return Some(Reason::NoRoot);
    }
    None
}

/// Of two slots that a command names.
pub(crate) fn slots_refusal(roots: u64, a: u32, b: u32) -> Option<Reason>
    ensures { result ≡ first_reason (slots_checks roots (a ∷ b ∷ [])) }
{
    if u64::from(a) >= roots {
        return Some(Reason::NoRoot);
    }
    if u64::from(b) >= roots {
        return Some(Reason::NoRoot);
    }
    None
}

/// Of the birth of an object of a fixed type for a slot, by the type that was found.
pub(crate) fn fixed_refusal(roots: u64, root: u32, found: Option<TypeInfo>) -> Option<Reason>
    ensures { result ≡ first_reason (slots_checks roots (root ∷ []) ++ born_checks found is_fixed_shape) }
{
    if u64::from(root) >= roots {
        return Some(Reason::NoRoot);
    }
    let Some(info) = found else {
        return Some(Reason::NoType);
    };
    match info.shape {
        Shape::Fixed { .. } => None,
        _ => Some(Reason::WrongShape),
    }
}

/// Of the birth of an array for a slot, by the type that was found.
pub(crate) fn array_refusal(roots: u64, root: u32, found: Option<TypeInfo>) -> Option<Reason>
    ensures { result ≡ first_reason (slots_checks roots (root ∷ []) ++ born_checks found is_array_shape) }
{
    if u64::from(root) >= roots {
        return Some(Reason::NoRoot);
    }
    let Some(info) = found else {
        return Some(Reason::NoType);
    };
    match info.shape {
        Shape::IntArray | Shape::RefArray => None,
        _ => Some(Reason::WrongShape),
    }
}

/// Of a whole number of what is in a slot.
pub(crate) fn int_refusal(found: Option<Kind>, item: u64) -> Option<Reason>
    ensures { result ≡ first_reason (int_checks found item) }
{
    let Some(kind) = found else {
        return Some(Reason::NilRoot);
    };
    match kind.shape {
        Shape::Fixed { .. } | Shape::IntArray => no_item(kind.ints, item),
        Shape::RefArray | Shape::Weak => Some(Reason::WrongShape),
    }
}

/// Of a reference of what is in a slot.
pub(crate) fn ref_refusal(found: Option<Kind>, item: u64) -> Option<Reason>
    ensures { result ≡ first_reason (ref_checks found item) }
{
    let Some(kind) = found else {
        return Some(Reason::NilRoot);
    };
    match kind.shape {
        Shape::Fixed { .. } | Shape::RefArray => no_item(kind.refs, item),
        Shape::IntArray | Shape::Weak => Some(Reason::WrongShape),
    }
}

/// Of an item of so many.
fn no_item(count: u64, item: u64) -> Option<Reason>
    ensures { result ≡ first_reason ((nat_le count item, reasons.NoItem) ∷ []) }
{
    if item >= count {
        return Some(Reason::NoItem);
    }
    None
}

/// Of a copy of references: of what is in the two slots, and of the ends of the two ranges of items.
pub(crate) fn copy_refusal(
    found: Option<Kind>,
    from: Option<Kind>,
    end: u64,
    from_end: u64,
) -> Option<Reason>
    ensures { result ≡ first_reason (copy_checks found from end from_end) }
{
    let Some(kind) = found else {
        return Some(Reason::NilRoot);
    };
    let Some(from_kind) = from else {
        return Some(Reason::NilRoot);
    };
    if !has_refs(kind.shape) || !has_refs(from_kind.shape) {
        return Some(Reason::WrongShape);
    }
    if kind.refs < end || from_kind.refs < from_end {
        return Some(Reason::NoItem);
    }
    None
}

/// Whether objects of the shape have references.
fn has_refs(shape: Shape) -> bool
    ensures { result ≡ holds_refs shape }
{
    matches!(shape, Shape::Fixed { .. } | Shape::RefArray)
}

/// Of what a slot holds, which must be a weak object.
pub(crate) fn weak_refusal(found: Option<Kind>) -> Option<Reason>
    ensures { result ≡ first_reason (weak_checks found) }
{
    let Some(kind) = found else {
        return Some(Reason::NilRoot);
    };
    match kind.shape {
        Shape::Weak => None,
        Shape::Fixed { .. } | Shape::IntArray | Shape::RefArray => Some(Reason::WrongShape),
    }
}

/// Of a queue, where there are so many.
pub(crate) fn queue_refusal(queues: u64, queue: u64) -> Option<Reason>
    ensures { result ≡ first_reason (queue_checks queues queue) }
{
    if queue >= queues {
        return Some(Reason::NoQueue);
    }
    None
}

/// Of a structure that must be there.
pub(crate) fn struct_refusal(found: StructState) -> Option<Reason>
    ensures { result ≡ first_reason (struct_checks found) }
{
    match found {
        StructState::Absent => Some(Reason::NoStruct),
        _ => None,
    }
}

/// Of a new link: of what stands at its number, whether it is a P link, and whether the object has one.
pub(crate) fn link_refusal(found: StructState, p: bool, has_p_link: bool) -> Option<Reason>
    ensures { result ≡ first_reason (link_checks found p has_p_link) }
{
    match found {
        StructState::Absent => {}
        _ => return Some(Reason::StructUsed),
    }
    if p && has_p_link {
        return Some(Reason::HasPLink);
    }
    None
}

/// Of a structure whose own count is to rise.
pub(crate) fn inc_refusal(found: StructState) -> Option<Reason>
    ensures { result ≡ first_reason (inc_checks found) }
{
    let own = match found {
        StructState::Absent => return Some(Reason::NoStruct),
        StructState::Pending => return Some(Reason::StructPending),
        StructState::Linked { own, .. } | StructState::Unlinked { own } => own,
    };
    if own >= 4_294_967_295 {
        return Some(Reason::CountFull);
    }
    None
}

/// Of a structure whose own count is to fall.
pub(crate) fn dec_refusal(found: StructState) -> Option<Reason>
    ensures { result ≡ first_reason (dec_checks found) }
{
    let own = match found {
        StructState::Absent => return Some(Reason::NoStruct),
        StructState::Pending => return Some(Reason::StructPending),
        StructState::Linked { own, .. } | StructState::Unlinked { own } => own,
    };
    if own == 0 {
        return Some(Reason::CountZero);
    }
    None
}
