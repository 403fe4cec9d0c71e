// A handle lends the module that it holds.
ghost use Rattle.std.specs.Prelude.{◌≡◌, IsTrue, is_some, Some};
ghost use Rattle.std.specs.Borrow.{sem};
ghost use Rattle.pcm_c.specs.Lending.{held_follows};

use crate::handle::Handle;
use crate::held::Held;

impl Handle {
    /// The module.
    pub(crate) fn held(&mut self) -> &mut Held
        requires { IsTrue (is_some self.old.value) }
        ensures* writes_back { sem 𝓛 (held_follows self.entry result) }
        ensures value { self.old.value ≡ Some result.now }
    {
        unsafe { &mut *(self.at as *mut Held) }
    }
}
