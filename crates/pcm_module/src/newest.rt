// The newest bytes of the lines of a module.
ghost use Rattle.std.specs.Prelude.{◌≡◌, ◌*◌, ◌<◌};
ghost use Rattle.ecp_line.specs.Layout.{IsLayout};
ghost use Rattle.module_shape.specs.Limits.{total_of};
ghost use Rattle.module_shape.specs.Addresses.{array_lines_of, module_of};
ghost use Rattle.pcm_module.specs.State.{stand_now};

use crate::side_by_side::Module;
use cell_rows::TellsCells;
use ecp_line::Ecp;
use masked_bytes::layers::lay_over;

impl<const B: usize, const M: usize, const E: usize> Module<B, M, E> {
    /// The newest bytes of a line: those that the queue of its bank gives, over what its array line is read as. Nothing is sensed, and no
    /// bank goes on.
    pub fn newest<A: TellsCells<B, M>>(&self, array: &A, line: u32) -> [u8; B]
        requires layout { IsLayout B M E }
        requires exists { line < total_of self.now.shape }
        requires size { (A.state array.now).lines
            ≡ self.now.shape.banks * array_lines_of (module_of self.now.shape) }
        ensures { result ≡ stand_now self.now (A.state array.now) line }
    {
        let place = self.place(line);
        let (given, which) = self.kept(place.bank).newest(place.line);
        let cells = array.held(self.translate(line));
        let mut bytes = Ecp::<B, M, E>::decode(&cells);
        lay_over(&given, &which, &mut bytes);
        bytes
    }
}
