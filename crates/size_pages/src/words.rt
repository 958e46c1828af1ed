//! Words of the arenas, read and written one at a time.

ghost use Rattle.std.specs.Prelude.{◌≡◌, ℕ};
ghost use Rattle.size_pages.specs.PageWords.{word_in, IsStored, CanStore, IsInArenas};

use heap_space::Space;

/// The word at a place of an arena.
pub fn load(space: &Space, a: u64) -> u64
    requires { CanStore space.now a }
    ensures { result ≡ word_in space.now a }
{
    space.read(a)
}

/// The word at a place of an arena is v from then on.
pub fn store(space: &mut Space, a: u64, v: u64)
    requires { CanStore space.old a }
    ensures word { IsStored (word_in space.old) (word_in space.new) a v }
    ensures arenas { IsInArenas space.old space.new }
    ensures still { (b : ℕ) → CanStore space.old b → CanStore space.new b }
{
    space.write(a, v);
}
