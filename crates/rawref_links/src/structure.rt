//! One C structure: linked with an object, linked no more, or waiting in the dead queue. A linked one has two counts: PyPy's
//! share, which tells plain and light links apart, and its own count, which C code raises and lowers.

ghost use Rattle.std.specs.Prelude.{◌≡◌, Some, true};
ghost use Rattle.store_model.specs.Store.{Linked, Unlinked, Pending};
ghost use Rattle.store_model.specs.Structs.{state_of, count_of, object_of, forced_object, raised, lowered, with_object};
ghost use Rattle.store_model.specs.Links.{link_end, fate_of, struct_after};
ghost use Rattle.rawref_links.specs.Conditions.{CanRise, CanFall};

use std::marker::Model;
use store_model::{Fate, LinkEnd, StructState};

/// PyPy's share in the count of a plainly linked structure.
const PLAIN_SHARE: u64 = 1 << 61;

/// PyPy's share in the count of a lightly linked structure.
const LIGHT_SHARE: u64 = (1 << 61) + (1 << 62);

/// A C structure.
#[derive(Clone, Copy)]
pub(crate) struct Structure {
    form: Form,
}

#[derive(Clone, Copy)]
enum Form {
    /// Linked with the object at the place `object`, by a P link or an O link.
    Linked {
        p: bool,
        light: bool,
        object: u64,
        own: u32,
    },
    Unlinked {
        own: u32,
    },
    Pending,
}

impl Model for Structure {
    ghost use Rattle.store_model.specs.Store.{Struct};

    ghost Value = { Struct };

    ghost use Rattle.rawref_links.specs.Form.{struct_of, form_of, form_of-struct_of};

    ghost view = { λ s. struct_of s.form };

    ghost inverse = { λ s. record { form = form_of s } };

    ghost use Rattle.std.proofs.Common.{ap};

    ghost inverse_ok = { λ a h. ap (λ f. record { form = f }) (form_of-struct_of a.form) };
}

impl Structure {
    /// A structure that is linked with the object at the place `object`.
    pub(crate) fn linked(p: bool, light: bool, object: u64, own: u32) -> Structure
        ensures { result ≡ Linked p light object own }
    {
        Structure {
            form: Form::Linked {
                p,
                light,
                object,
                own,
            },
        }
    }

    /// A structure that its own count alone holds.
    pub(crate) fn unlinked(own: u32) -> Structure
        ensures { result ≡ Unlinked own }
    {
        Structure {
            form: Form::Unlinked { own },
        }
    }

    /// What a caller is told of it.
    pub(crate) fn state(self) -> StructState
        ensures { result ≡ state_of (Some self) }
    {
        match self.form {
            Form::Linked {
                p,
                light,
                object: _,
                own,
            } => StructState::Linked {
                p,
                light,
                own: u64::from(own),
            },
            Form::Unlinked { own } => StructState::Unlinked {
                own: u64::from(own),
            },
            Form::Pending => StructState::Pending,
        }
    }

    /// The count that is told: PyPy's share and the own count.
    pub(crate) fn count(self) -> u64
        ensures { result ≡ count_of self }
    {
        match self.form {
            Form::Linked {
                light: true,
                own,
                ..
            } => LIGHT_SHARE + u64::from(own),
            Form::Linked {
                light: false,
                own,
                ..
            } => PLAIN_SHARE + u64::from(own),
            Form::Unlinked { own } => u64::from(own),
            Form::Pending => 1,
        }
    }

    /// The object that it is linked with.
    pub(crate) fn object(self) -> Option<u64>
        ensures { result ≡ object_of self }
    {
        match self.form {
            Form::Linked { object, .. } => Some(object),
            Form::Unlinked { .. } | Form::Pending => None,
        }
    }

    /// The object that it keeps alive: that of a P link whose own count is above 0.
    pub(crate) fn forced_object(self) -> Option<u64>
        ensures { result ≡ forced_object self }
    {
        match self.form {
            Form::Linked {
                p: true,
                own,
                object,
                ..
            } if own > 0 => Some(object),
            _ => None,
        }
    }

    /// The same with an own count of one more.
    pub(crate) fn raised(self) -> Structure
        requires { CanRise self }
        ensures { result ≡ raised self }
    {
        match self.form {
            Form::Linked {
                p,
                light,
                object,
                own,
            } => Structure::linked(p, light, object, own + 1),
            Form::Unlinked { own } => Structure::unlinked(own + 1),
            Form::Pending => self,
        }
    }

    /// The same with an own count of one less, `None` where nothing else held it.
    pub(crate) fn lowered(self) -> Option<Structure>
        requires { CanFall self }
        ensures { result ≡ lowered self }
    {
        match self.form {
            Form::Linked {
                p,
                light,
                object,
                own,
            } => Some(Structure::linked(p, light, object, own - 1)),
            Form::Unlinked { own: 1 } => None,
            Form::Unlinked { own } => Some(Structure::unlinked(own - 1)),
            Form::Pending => Some(self),
        }
    }

    /// The same with its object at the place `to`.
    pub(crate) fn moved(self, to: u64) -> Structure
        ensures { result ≡ with_object (λ _. to) self }
    {
        match self.form {
            Form::Linked { p, light, own, .. } => Structure::linked(p, light, to, own),
            Form::Unlinked { .. } | Form::Pending => self,
        }
    }

    /// How its link ends once its object is gone, told under its number. `None` where it is not linked.
    pub(crate) fn end(self, number: u32) -> Option<LinkEnd>
        ensures { result ≡ link_end (λ _. true) (number, self) }
    {
        match self.form {
            Form::Linked { light, own, .. } => Some(LinkEnd {
                number,
                own: u64::from(own),
                fate: fate(light, own),
            }),
            Form::Unlinked { .. } | Form::Pending => None,
        }
    }

    /// What is left of it once its object is gone, if it is still there.
    pub(crate) fn cut(self) -> Option<Structure>
        ensures { result ≡ struct_after (λ _. true) self }
    {
        match self.form {
            Form::Linked { light, own, .. } => match fate(light, own) {
                Fate::Unlinked => Some(Structure::unlinked(own)),
                Fate::Pending => Some(Structure {
                    form: Form::Pending,
                }),
                Fate::Released => None,
            },
            Form::Unlinked { .. } | Form::Pending => Some(self),
        }
    }
}

// What becomes of a linked structure whose object is gone.
fn fate(light: bool, own: u32) -> Fate
    ensures { result ≡ fate_of light own }
{
    if own > 0 {
        Fate::Unlinked
    } else if light {
        Fate::Released
    } else {
        Fate::Pending
    }
}
