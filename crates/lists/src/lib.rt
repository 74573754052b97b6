// A list of bounded length by value: an array of which the first items count, since no call uses the heap. Rests on nothing.
#![tactic(auto)]

ghost use Rattle.std.specs.Prelude.{◌≡◌, [], ◌∷◌, ◌++◌, ◌<◌, ◌≤◌, length, get_or, set, take, ⊤};

use std::alloc::AllocError;

// At most N items. The fields are private, so that nothing makes such a list but its methods.
#[derive(Copy)]
pub struct List<T, const N: usize> {
    items: [T; N],
    count: usize,
    ghost within: { (length items ≡ N) × (count ≤ N) },
}

// By hand: in a generic struct the derive is refused beside a ghost field.
impl<T: Copy, const N: usize> Clone for List<T, N> {
    ghost is_clone = { λ x y. y ≡ x };

    ghost is_infallible = { λ _. ⊤ };

    fn clone(&self) -> Result<List<T, N>, AllocError> {
        Ok(*self)
    }
}

#[tactic(auto, unfolding(crate::specs::Items::items_of))]
impl<T: Copy, const N: usize> List<T, N> {
    ghost use Rattle.lists.specs.Items.{items_of};

    // No items; the array is filled with one that is no part of the list.
    pub fn empty(blank: T) -> List<T, N>
        ensures { items_of result ≡ [] }
    {
        List {
            items: [blank; N],
            count: 0,
        }
    }

    // The list of the first items of an array.
    pub fn of(items: [T; N], count: usize) -> List<T, N>
        requires { count ≤ N }
        ensures { items_of result ≡ take count items }
    {
        List { items, count }
    }

    pub fn push(&mut self, item: T)
        requires { length (items_of self.old) < N }
        ensures { items_of self.new ≡ items_of self.old ++ (item ∷ []) }
    {
        self.items[self.count] = item;
        self.count += 1;
    }

    // Another item in the place of one.
    #[tactic(auto, using(crate::proofs::Filled::filled_put), unfolding(crate::specs::Items::items_of))]
    pub fn put(&mut self, i: usize, item: T)
        requires { i < length (items_of self.old) }
        ensures { items_of self.new ≡ set (items_of self.old) i item }
    {
        self.items[i] = item;
    }

    pub fn count(&self) -> usize
        ensures number { result ≡ length (items_of self.now) }
        ensures within { result ≤ N }
    {
        self.count
    }

    pub fn at(&self, i: usize) -> T
        requires { i < length (items_of self.now) }
        ensures { (blank : T) → result ≡ get_or (items_of self.now) i blank }
    {
        self.items[i]
    }

    pub fn as_slice(&self) -> &[T]
        ensures { result.now ≡ items_of self.now }
    {
        &self.items[..self.count]
    }
}
