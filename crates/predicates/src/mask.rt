// A predicate that answers by flags, whatever it is shown.
ghost use Rattle.std.specs.Prelude.{◌≡◌, Bool, List};
ghost use Rattle.predicates.specs.Kinds.{mask, flags_left};

use crate::predicate::Predicate;

// The flags that are left: one is used at each showing, and beyond the last it answers no.
#[derive(Drop)]
pub struct Mask<'a> {
    flags: &'a [bool],
}

impl Mask<'_> {
    pub fn new(flags: &[bool]) -> Mask<'_>
        ensures { flags_left result ≡ flags.now }
    {
        Mask { flags }
    }
}

impl<T: Copy> Predicate<T> for Mask<'_> {
    ghost State = { List Bool };

    ghost state = { flags_left };

    ghost rule = { mask };

    fn show(&mut self, _item: &mut T) -> bool {
        let Some((flag, left)) = self.flags.split_first() else {
            return false;
        };
        self.flags = left;
        *flag
    }
}
