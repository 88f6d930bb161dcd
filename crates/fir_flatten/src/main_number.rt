//! The main module (FIRRTL spec, "Circuits").

ghost use Rattle.std.specs.Prelude.{◌≡◌};
ghost use Rattle.fir_ast.specs.working.Views.{circuit_of};
ghost use Rattle.fir_flatten.specs.working.CircuitParts.{number_of_main};

use fir_ast::Circuit;

/// The number of the module that has the circuit's name.
pub fn main_number(circuit: &Circuit) -> Option<usize>
    ensures { result ≡ number_of_main (circuit_of circuit.now) }
{
    for (number, part) in circuit.modules.as_slice().iter().enumerate() {
        if part.ident.name == circuit.ident.name {
            return Some(number);
        }
    }
    None
}
