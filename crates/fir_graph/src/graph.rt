//! Graphs, as a search sees them.

ghost use Rattle.std.specs.Prelude.{◌≡◌, ℕ, ◌+◌, ◌^◌, ◌<◌, List, IfSome, OnSome, slice_get};

/// A directed graph, whose vertices are numbered from 0 on.
pub trait Graph {
    ghost size: { Self → ℕ };

    /// The targets of a vertex, in order.
    ghost targets: { Self → ℕ → List ℕ };

    /// How many vertices there are.
    fn size(&self) -> usize
        ensures { result ≡ size self.now };

    /// The target of the vertex at that place, if it has so many.
    fn target(&self, vertex: usize, place: usize) -> Option<usize>
        ensures found { result ≡ slice_get (targets self.now vertex) place }
        ensures within { IfSome result (λ t. t < size self.now) }
        ensures room { OnSome result (place + 1 < 2 ^ 64) };

    /// Whether the vertex counts for the length of a circle.
    fn counts(&self, _vertex: usize) -> bool {
        true
    }
}
