// What can be asked of a ring, and of the drain that it is moved into.
pub use places::End;

// The edits that use neither a predicate nor a bin.
#[derive(Clone, Copy, Debug, PartialEq, Eq)]
pub enum Edit<'a, T> {
    Load(&'a [T]),
    Push(End, T),
    Pop(End),
    Swap(usize, usize),
    SwapRemove(End, usize),
    MakeContiguous,
}

// The edits that show one item to a predicate.
#[derive(Clone, Copy, Debug, PartialEq, Eq)]
pub enum Test {
    PopIf(End),
    Change(usize),
}

// The edits that let items go into a bin.
#[derive(Clone, Copy, Debug, PartialEq, Eq)]
pub enum Release {
    Truncate(usize),
    Clear,
}

// The calls that change nothing.
#[derive(Clone, Copy, Debug, PartialEq, Eq)]
pub enum Read<'a> {
    Get(usize),
    // the item at this end
    AtEnd(End),
    Len,
    Capacity,
    IsEmpty,
    IsFull,
    Slices,
    // a walk that takes an item from each of these ends in turn
    Walk(&'a [End]),
}

// A call with what it brings. A predicate or a bin is named by its place among those that are lent to the history.
// Of a drain, `Edit::Pop` is `next` or `next_back`, `Read::Len` is `len`, and `Close` is `finish`.
#[derive(Clone, Copy, Debug, PartialEq, Eq)]
pub enum Call<'a, T> {
    Edit(Edit<'a, T>),
    Test { test: Test, predicate: usize },
    Release { release: Release, bin: usize },
    Retain { predicate: usize, bin: usize },
    Read(Read<'a>),
    IntoIter,
    Close { bin: usize },
}

// A call, and how many slots it is lent: so many of those that there are where they are fewer than the capacity, else all.
#[derive(Clone, Copy, Debug, PartialEq, Eq)]
pub struct Request<'a, T> {
    pub lent: usize,
    pub call: Call<'a, T>,
}
