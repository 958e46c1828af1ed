//! Weak objects. Such an object has one target, which it does not keep alive.
ghost use Rattle.std.specs.Prelude.{◌≡◌, ℕ, ◌<◌, List, [], ◌∷◌, ◌++◌, length, IfOk, OnOk, OnErr};
ghost use Rattle.type_table.specs.declared.info.Shape.TheVariants.{Weak};
ghost use Rattle.parts_model.specs.Parts.{place_in};
ghost use Rattle.parts_model.specs.Births.{TakesNone};
ghost use Rattle.parts_model.specs.WeakBirths.{with_listed, HasWeakRoom, BearsWeak};

use crate::parts::Parts;
use std::alloc::AllocError;
use type_table::TypeInfo;

impl Parts {
    /// A new weak object with the target at this place, or with none, in a slot. It is born in the nursery where that has
    /// room, and else outside it, and it is listed. Answers whether it was born outside. The error is out of memory, and
    /// no object changes then.
    pub fn bear_weak(
        &mut self,
        root: u32,
        type_id: u16,
        info: TypeInfo,
        target: u64,
    ) -> Result<bool, AllocError>
        requires { HasWeakRoom self.old root info }
        ensures born { IfOk result (λ is_old. BearsWeak is_old self.old self.new root type_id info target) }
        ensures err { OnErr result (TakesNone self.old self.new) }
    {
        self.list_weak()?;
        if self.bear_young(root, type_id, info, 0, target) {
            self.place_weak(root);
            return Ok(false);
        }
        if let Err(error) = self.bear_old(root, type_id, info, 0, target) {
            self.unlist_weak();
            return Err(error);
        }
        self.place_weak(root);
        Ok(true)
    }

    /// Lists a weak object that is to be born, at 0 until its place is known. The error is out of memory, and nothing
    /// changes then.
    fn list_weak(&mut self) -> Result<(), AllocError>
        ensures ok { OnOk result (self.new ≡ with_listed self.old 0) }
        ensures err { OnErr result (self.new ≡ self.old) }
    {
        self.weaks.add(0)
    }

    /// Says that what was listed last is the weak object in a slot.
    fn place_weak(&mut self, root: u32)
        requires { 0 < length self.old.weaks }
        ensures { (front : List ℕ) (last : ℕ) → self.old.weaks ≡ front ++ last ∷ [] → self.new ≡ record self.old { weaks = front ++ place_in self.old root ∷ [] } }
    {
        let place = self.place(root);
        self.weaks.place_last(place);
    }

    /// Takes off the list what was listed last.
    fn unlist_weak(&mut self)
        requires { 0 < length self.old.weaks }
        ensures { (front : List ℕ) (last : ℕ) → self.old.weaks ≡ front ++ last ∷ [] → self.new ≡ record self.old { weaks = front } }
    {
        self.weaks.drop_last();
    }
}
