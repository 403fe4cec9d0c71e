//! A list that contracts alone read: what was told, asked or kept, item by item, of which no byte stands in memory.
#![tactic(auto)]

ghost use Rattle.std.specs.Prelude.{◌≡◌, [], ◌∷◌, ◌++◌};
ghost use Rattle.ghost_list.specs.Items.{items, newest};

use std::snapshot::Snapshot;

/// A list of which a clause reads the `items`. It is worth no more than what ties it to what is there. One byte says whether it is
/// empty; its items have none.
#[derive(Drop)]
pub enum GhostList<T> {
    Empty,
    Behind(Snapshot<GhostList<T>>, Snapshot<T>),
}

impl<T> GhostList<T> {
    /// A list of nothing.
    pub fn new() -> GhostList<T>
        ensures items { items result ≡ [] }
        ensures newest { newest result ≡ [] }
    {
        GhostList::Empty
    }

    /// The list with one item more at its end.
    pub fn and(&self, item: &T) -> GhostList<T>
        ensures items { items result ≡ items self.now ++ item.now ∷ [] }
        ensures newest { newest result ≡ item.now ∷ newest self.now }
    {
        GhostList::Behind(Snapshot::of(self), Snapshot::of(item))
    }
}
