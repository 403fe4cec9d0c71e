// A module that C holds.
use crate::handle::Handle;
use std::marker::Model;

/// A module that C holds, open or closed. One that is all zero is closed.
#[repr(C)]
#[derive(Drop)]
pub struct PcmModule {
    pub(crate) is_open: bool,
    pub(crate) handle: Handle,
}

// Contracts see the handle, which says whether it is open.
impl Model for PcmModule {
    ghost use Rattle.std.specs.Prelude.{◌≡◌, is_some};
    ghost use Rattle.std.proofs.Common.{ap, sym};
    ghost use Rattle.pcm_c.specs.declared.handle.Handle.{Handle};

    ghost Value = { Handle };

    ghost view = { λ p. p.handle };

    ghost invariant = { λ p. p.is_open ≡ is_some p.handle.value };

    ghost inverse = { λ handle. record { is_open = is_some handle.value; handle = handle } };

    ghost inverse_ok = { λ p tells. ap (λ o. record p { is_open = o }) (sym tells) };
}
