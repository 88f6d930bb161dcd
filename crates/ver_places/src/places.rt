//! Places one by one.

ghost use Rattle.std.specs.Prelude.{◌≡◌, drop};
ghost use Rattle.ver_places.specs.Places.{place_at};

use ver_ast::VPlace;

/// The place behind so many of these, or line 0, column 0.
pub fn place_at(places: &[VPlace], count: usize) -> VPlace
    ensures { result ≡ place_at count places.now }
{
    match places.get(count) {
        Some(place) => *place,
        None => VPlace { line: 0, col: 0 },
    }
}

/// The places behind so many of these.
pub fn behind(places: &[VPlace], count: usize) -> &[VPlace]
    ensures { result.now ≡ drop count places.now }
{
    &places[count.min(places.len())..]
}
