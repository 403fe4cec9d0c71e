// What the array lines of a module are used for.
ghost use Rattle.std.specs.Prelude.{◌≡◌, ◌+◌, ◌*◌, ◌/◌, ◌<◌, ◌≤◌, ℕ};
ghost use Rattle.module_shape.specs.Addresses.{module_of, lines_of, array_lines_of, bank_shape};
ghost use Rattle.right_runs.specs.Ends.{BankEnd};
ghost use Rattle.right_runs.specs.Roles.{IsRole};
ghost use Rattle.right_runs.specs.Banks.{line_named};
ghost use Rattle.pcm_module.specs.State.{AreEndsOf};
ghost use Rattle.pcm_module.specs.Roles.{spares_used};

use crate::bank_roles::{role_in, used_in};
use crate::side_by_side::Module;
use bank_shape::Role;
use module_shape::Shape;

impl<const B: usize, const M: usize, const E: usize> Module<B, M, E> {
    /// What an array line is used for; a line goes by its number in the module.
    pub fn role(&self, array_line: u32) -> Role
        requires exists { array_line
            < self.now.shape.banks * array_lines_of (module_of self.now.shape) }
        ensures { (ends : ℕ → BankEnd) → AreEndsOf self.now ends
            → IsRole (bank_shape (module_of self.now.shape)
            (array_line / array_lines_of (module_of self.now.shape)))
            (line_named self.now.shape self.now.seed
            (array_line / array_lines_of (module_of self.now.shape)))
            (ends (array_line / array_lines_of (module_of self.now.shape))) array_line result }
    {
        let bank = bank_of(&self.shape, array_line);
        match role_in(self.kept(bank), array_line) {
            Role::Line(own) => Role::Line(self.line_of(bank, own)),
            role => role,
        }
    }

    /// How many spares of all banks are used, those included that are retired since.
    pub fn retired(&self) -> u32
        ensures { (ends : ℕ → BankEnd) → AreEndsOf self.now ends
            → result ≡ spares_used self.now.shape ends }
    {
        let mut used = 0;
        for bank in 0..self.shape.banks() {
            used += used_in(self.kept(bank));
        }
        used
    }

    // The line of the module that has a number in a bank.
    fn line_of(&self, bank: u32, own: u32) -> u32
        requires bank { bank < self.now.shape.banks }
        requires own { own < lines_of (module_of self.now.shape) }
        ensures { result ≡ line_named self.now.shape self.now.seed bank own }
    {
        let raw = self.shape.raw();
        self.feistel.back(bank * (raw.regions * raw.lines) + own)
    }
}

// The bank of an array line.
fn bank_of(shape: &Shape, array_line: u32) -> u32
    requires { array_line < shape.now.banks * array_lines_of (module_of shape.now) }
    ensures number { result ≡ array_line / array_lines_of (module_of shape.now) }
    ensures exists { result < shape.now.banks }
    ensures begins { result * array_lines_of (module_of shape.now) ≤ array_line }
    ensures ends { array_line < result * array_lines_of (module_of shape.now)
        + array_lines_of (module_of shape.now) }
{
    array_line / bank_lines(shape)
}

// How many array lines a bank has.
fn bank_lines(shape: &Shape) -> u32
    ensures number { result ≡ array_lines_of (module_of shape.now) }
    ensures some { 0 < result }
{
    shape.array_lines() / shape.banks()
}
