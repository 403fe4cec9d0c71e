// Arrays that tell how worn they are.
ghost use Rattle.std.specs.Prelude.{◌≡◌};

use cell_rows::TellsCells;
use row_printer::ArrayWear;

/// An array that tells how worn it is, where its lines have `E` pointers.
pub trait TellsWear<const B: usize, const M: usize, const E: usize>: TellsCells<B, M> {
    ghost use Rattle.ecp_line.specs.Layout.{IsLayout};
    ghost use Rattle.wear_totals.specs.Wear.{wear_of};

    /// How worn the array is.
    fn array_wear(&self) -> ArrayWear
        requires layout { IsLayout B M E }
        ensures { result ≡ wear_of E (Self.state self.now) };
}
