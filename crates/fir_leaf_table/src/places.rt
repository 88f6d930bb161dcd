//! Where the leaves of a declaration stand.

ghost use Rattle.std.specs.Prelude.{◌≡◌, if◌then◌else◌, slice_index_or};
ghost use Rattle.fir_leaf_table.specs.working.Givers.{place_of};

use fir_ast::Place;

/// Where the leaves of a declaration stand, each by its number among them.
#[derive(Clone, Copy)]
pub enum Places<'a> {
    /// All where its name does.
    Own(Place),
    /// Those that are flipped where its name does, the others each at the port of this number.
    Ports(Place, &'a [Place]),
}

/// Where the leaf of a number stands.
pub fn place_given(places: &Places, k: usize, flip: bool) -> Place
    ensures { result ≡ place_of places.now k flip }
{
    match places {
        Places::Own(place) => *place,
        Places::Ports(place, ports) => port_place(*place, ports, k, flip),
    }
}

fn port_place(place: Place, ports: &[Place], k: usize, flip: bool) -> Place
    ensures { result ≡ (if flip then place else slice_index_or ports.now k place) }
{
    if flip {
        return place;
    }
    ports.get(k).copied().unwrap_or(place)
}
