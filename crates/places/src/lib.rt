// Where a ring lies in its slots, and its two ends.
#![tactic(auto)]

ghost use Rattle.std.specs.Prelude.{◌≡◌, ◌==◌};

#[derive(Clone, Copy, Debug, PartialEq, Eq)]
pub enum End {
    Front,
    Back,
}

// The list begins at the slot `front`, is `len` items long, and goes on at slot 0 after slot `capacity` - 1.
#[derive(Clone, Copy, Debug, PartialEq, Eq)]
pub struct Places {
    pub capacity: usize,
    pub front: usize,
    pub len: usize,
}

impl Places {
    pub fn capacity(&self) -> usize
        ensures { result ≡ self.now.capacity }
    {
        self.capacity
    }

    pub fn front(&self) -> usize
        ensures { result ≡ self.now.front }
    {
        self.front
    }

    pub fn len(&self) -> usize
        ensures { result ≡ self.now.len }
    {
        self.len
    }

    pub fn is_empty(&self) -> bool
        ensures { result ≡ (self.now.len == 0) }
    {
        let Places { len, .. } = *self;
        len == 0
    }

    pub fn is_full(&self) -> bool
        ensures { result ≡ (self.now.len == self.now.capacity) }
    {
        let Places { capacity, len, .. } = *self;
        len == capacity
    }
}
