//! The trait of lists that come one by one.
ghost use Rattle.std.specs.Prelude.{◌≡◌, ℕ, ◌+◌, ◌≤◌, List, length};
ghost use Rattle.std.specs.Option.{option_to_list};
ghost use Rattle.geo_stream.specs.Stream.{HasList, TakesFirst};

/// A list whose items come one by one. The stream stands for the list of the items still to come.
///
/// A contract says this by a relation between a stream and a list, since what a kept closure answers is known by its promise alone.
pub trait Stream {
    /// What comes.
    type Item;

    // The items still to come are this list.
    ghost stands_for: { Self → List Self.Item → Type 0 };

    // No more items than this are still to come. It falls with each item and never rises, so a loop over a stream has it as its measure.
    ghost size: { Self → ℕ };

    // The size of no stream of this type is greater. A stream of streams has its size by this number.
    ghost most: { ℕ };

    /// The first item of the list, which it removes from the list. None exactly where the list is empty, and it stays empty. It takes no memory.
    fn next(&mut self) -> Option<Self::Item>
        requires { HasList stands_for self.old }
        ensures first { (items : List Self.Item) → stands_for self.old items → TakesFirst stands_for items result self.new }
        ensures size { size self.new + length (option_to_list result) ≤ size self.old };

    // No stream stands for two lists.
    ghost one_list: { (stream : Self) (xs ys : List Self.Item) → stands_for stream xs → stands_for stream ys → xs ≡ ys };

    // The list is no longer than the size.
    ghost no_longer: { (stream : Self) (xs : List Self.Item) → stands_for stream xs → length xs ≤ size stream };

    // The size is at most the greatest.
    ghost bounded: { (stream : Self) (xs : List Self.Item) → stands_for stream xs → size stream ≤ most };
}
