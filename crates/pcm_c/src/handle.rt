// A boxed module behind a pointer that C keeps.
ghost use Rattle.std.specs.Prelude.{◌≡◌, IsTrue, is_some, Some, None, Option};
ghost use Rattle.std.specs.declared.alloc.Global.{Global};
ghost use Rattle.pcm_c.specs.declared.held.Held.{Held};

use crate::held::Held;
use crate::loose::Loose;
use std::alloc::Global;
use std::marker::Model;

/// The pointer to a boxed module, or none. To let one go frees nothing: who holds a module takes it out first.
#[repr(C)]
#[derive(Drop)]
pub struct Handle {
    pub(crate) at: *mut u8,
    ghost value: { Option Held },
    ghost heap: { Global },
}

impl Model for Handle {
    ghost use Rattle.std.specs.Prelude.{Option};
    ghost use Rattle.std.specs.declared.alloc.Global.{Global};
    ghost use Rattle.pcm_c.specs.declared.held.Held.{Held};
    ghost use Rattle.pcm_c.specs.Owning.{owned};

    ghost also_owns = { λ h. owned h.heap h.at h.value };
}

impl Handle {
    /// One that holds nothing.
    pub(crate) fn none(_alloc: Global) -> Handle
        ensures { result.value ≡ None }
    {
        Handle {
            at: std::ptr::null_mut(),
        }
    }

    // A box that C keeps.
    fn from_loose(loose: Loose<Held, Global>) -> Handle
        ensures { result.value ≡ Some loose.value }
    {
        let Loose { at, alloc: _ } = loose;
        Handle { at: at as *mut u8 }
    }

    fn into_loose(self, alloc: Global) -> Loose<Held, Global>
        requires { IsTrue (is_some self.value) }
        ensures { self.value ≡ Some result.value }
    {
        let Handle { at } = self;
        Loose {
            at: at as *mut Held,
            alloc,
        }
    }

    /// One that holds a module.
    pub(crate) fn of(held: Box<Held>) -> Handle
        ensures { result.value ≡ Some held.value }
    {
        Handle::from_loose(Loose::of(held))
    }

    /// The module that it holds.
    pub(crate) fn into_box(self, alloc: Global) -> Box<Held>
        requires { IsTrue (is_some self.value) }
        ensures { self.value ≡ Some result.value }
    {
        self.into_loose(alloc).into_box()
    }
}
