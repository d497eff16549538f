ghost use Rattle.std.specs.Prelude.{◌≡◌, ◌≤◌, vec_len};

/// A list that is not empty.
#[derive(Drop)]
pub struct NonEmpty<T> {
    items: Vec<T>,
    ghost some: { 1 ≤ vec_len items },
}

impl<T> NonEmpty<T> {
    ghost use Rattle.streetmap_grid.specs.Views.{items_of};

    /// The list of items in their order, of which there must be at least one.
    pub fn new(items: Vec<T>) -> NonEmpty<T>
        requires { 1 ≤ vec_len items }
        ensures { items_of result ≡ items.items }
    {
        Self { items }
    }

    /// The items, in their order.
    pub fn items(&self) -> &[T]
        ensures { result.now ≡ items_of self.now }
    {
        &self.items
    }
}
