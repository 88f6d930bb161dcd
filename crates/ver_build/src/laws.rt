//! Laws about the definitions, each the contract of a function that does nothing.

ghost use Rattle.ver_build.specs.working.Laws.{NamesAreForRows, BuiltHasAnyPlaces};

use ver_ast::places_count_for_nothing;

/// The names of a net's leaves and arrays are those for its ports and then for the words and the arrays of its state.
pub fn names_are_for_rows()
    ensures { NamesAreForRows }
{}

/// What is built for a net is built for it with other places too.
pub fn built_has_any_places()
    ensures { BuiltHasAnyPlaces }
{
    places_count_for_nothing();
}
