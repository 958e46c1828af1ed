//! What the objects of one type have.

ghost use Rattle.std.specs.Prelude.{◌≡◌, ◌≤◌};
ghost use Rattle.type_table.specs.Words.{words_in};

/// What an object holds, beside its header and its birth. (This project's own.)
#[derive(Clone, Copy, Debug, PartialEq, Eq)]
pub enum Shape {
    /// So many whole numbers, and behind them so many references.
    Fixed { ints: u16, refs: u16 },
    /// An array of whole numbers, whose length is chosen at each birth.
    IntArray,
    /// An array of references, whose length is chosen at each birth.
    RefArray,
    /// One weak target, which is no reference.
    Weak,
}

/// The descriptor of a type.
#[derive(Clone, Copy, Debug, PartialEq, Eq)]
pub struct TypeInfo {
    pub shape: Shape,
    /// Whether a line tells of each object of the type that dies.
    pub destructor: bool,
}

/// The words of an object of the type: its header and its birth, the length of an array, and the items or the weak
/// target. `len` is the number of an array's items, and says nothing of the other shapes.
pub fn words(info: TypeInfo, len: u64) -> u64
    requires { len ≤ 16777216 }
    ensures { result ≡ words_in info.shape len }
{
    match info.shape {
        Shape::Fixed { ints, refs } => 2 + u64::from(ints) + u64::from(refs),
        Shape::IntArray | Shape::RefArray => 3 + len,
        Shape::Weak => 3,
    }
}
