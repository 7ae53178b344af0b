// What a bounded list holds, and how it grows.
ghost use Rattle.std.specs.Prelude.{◌≡◌, ◌<◌, ◌≤◌, [], ◌∷◌, ◌++◌, length};
ghost use Rattle.lists.specs.Lists.{MadeList, listed};

use crate::BoundedList;

impl<T: Copy, const N: usize> BoundedList<T, N> {
    /// No items. The filler stands in the places that are not used.
    pub fn new(filler: T) -> BoundedList<T, N>
        ensures { listed result ≡ [] }
    {
        BoundedList {
            count: 0,
            items: [filler; N],
        }
    }

    /// The list of these items, unless they are too many. The filler stands in the places that are not used.
    pub fn from_slice(filler: T, items: &[T]) -> Option<BoundedList<T, N>>
        ensures { MadeList N items.now result }
    {
        if items.len() > N {
            return None;
        }
        let mut places = [filler; N];
        places[..items.len()].copy_from_slice(items);
        Some(BoundedList {
            count: items.len(),
            items: places,
        })
    }

    /// The items, in order.
    pub fn as_slice(&self) -> &[T]
        ensures items { result.now ≡ listed self.now }
        ensures few { length result.now ≤ N }
    {
        &self.items[..self.count]
    }

    /// Adds an item at the end. The caller has seen that there is space.
    pub fn push(&mut self, item: T)
        requires { length (listed self.old) < N }
        ensures { listed self.new ≡ listed self.old ++ (item ∷ []) }
    {
        self.items[self.count] = item;
        self.count += 1;
    }
}
