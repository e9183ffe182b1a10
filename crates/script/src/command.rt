// What a line can ask for.
pub use crate::error::Mistake;
pub use places::End;

// The calls that take no number.
#[derive(Clone, Copy, Debug, PartialEq, Eq)]
pub enum Plain {
    PopFront,
    PopBack,
    Front,
    Back,
    Len,
    Capacity,
    IsEmpty,
    IsFull,
    Slices,
    Iter,
    MakeContiguous,
    Clear,
    Close,
    Draw,
}

// The calls that take one index, or one length.
#[derive(Clone, Copy, Debug, PartialEq, Eq)]
pub enum Indexed {
    Get,
    Truncate,
    SwapRemoveFront,
    SwapRemoveBack,
}

// The kinds of predicates.
#[derive(Clone, Copy, Debug, PartialEq, Eq)]
pub enum Kind {
    AtLeast,
    Adding,
    Mask,
}

// A predicate, with what it is given. `F` holds the flags of a mask.
#[derive(Clone, Debug, Drop, PartialEq, Eq)]
pub enum Test<F> {
    AtLeast(u8),
    Adding(u8),
    Mask(F),
}

// The first word of a line.
#[derive(Clone, Copy, Debug, PartialEq, Eq)]
pub enum Name {
    Plain(Plain),
    Indexed(Indexed),
    Push(End),
    Swap,
    Load,
    Capacity,
    Retain(Kind),
    PopIf(End, Kind),
    Change,
}

// What a line asks for. `I` holds the items of a load, and `F` the flags of a mask.
#[derive(Clone, Debug, Drop, PartialEq, Eq)]
pub enum Command<I, F> {
    // a blank line, or a comment: a reading like the others, and no `None` around them all, which would be no plainer
    Nothing,
    // a ring of so many slots
    Make(usize),
    Plain(Plain),
    Indexed(Indexed, usize),
    Push(End, u8),
    Swap(usize, usize),
    Load(I),
    Retain(Test<F>),
    PopIf(End, Test<F>),
    Change(usize, Test<F>),
}
