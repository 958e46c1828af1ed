//! The kinds of pages, and the list of each.

ghost use Rattle.std.specs.Prelude.{◌≡◌, ◌≢◌, ℕ, ◌^◌, ◌<◌, ◌≤◌, true, false, IsTrue};
ghost use Rattle.size_pages.specs.Kinds.{kind_number, list_index};
ghost use Rattle.size_pages.specs.declared.kinds.PageKind.TheVariants.{Full, Waiting};

/// What a page is. It says on which list the page is.
#[derive(Clone, Copy)]
pub enum PageKind {
    /// It has no class and no block, and is on no list.
    Unused,
    /// It has a free block, and is on the first list of its class.
    Room,
    /// It has none, and is on the second list of its class.
    Full,
    /// It is to be swept, and on the one list of all such pages.
    Waiting,
}

/// The list of the waiting pages, of whatever class.
pub const WAITING_LIST: usize = 1;

/// The first list of a class. The lists of all classes stand behind it.
pub const CLASS_LISTS: usize = 2;

impl PageKind {
    /// The number that stands for it in a header.
    pub fn number(self) -> u64
        ensures { result ≡ kind_number self }
    {
        match self {
            PageKind::Unused => 0,
            PageKind::Room => 1,
            PageKind::Full => 2,
            PageKind::Waiting => 3,
        }
    }

    /// The kind with that number.
    pub fn of_number(number: u64) -> PageKind
        requires { number ≤ 3 }
        ensures { kind_number result ≡ number }
    {
        match number {
            0 => PageKind::Unused,
            1 => PageKind::Room,
            2 => PageKind::Full,
            _ => PageKind::Waiting,
        }
    }

    /// The list of the pages of this kind with blocks of so many words.
    pub fn list(self, class: u64) -> usize
        requires { class < 2 ^ 62 }
        ensures { result ≡ list_index self class }
    {
        match self {
            PageKind::Unused => 0,
            PageKind::Room => 2 * class as usize,
            PageKind::Full => 2 * class as usize + 1,
            PageKind::Waiting => WAITING_LIST,
        }
    }

    /// Whether its pages wait.
    pub fn is_waiting(self) -> bool
        ensures yes { result ≡ true → kind_number self ≡ kind_number Waiting }
        ensures waits { kind_number self ≡ kind_number Waiting → IsTrue result }
        ensures no { result ≡ false → kind_number self ≢ kind_number Waiting }
    {
        match self {
            PageKind::Waiting => true,
            _ => false,
        }
    }

    /// Whether its pages are full.
    pub fn is_full(self) -> bool
        ensures yes { result ≡ true → kind_number self ≡ kind_number Full }
        ensures no { result ≡ false → kind_number self ≢ kind_number Full }
    {
        match self {
            PageKind::Full => true,
            _ => false,
        }
    }
}
