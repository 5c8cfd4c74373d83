// Mandatory constraints among objects, by one bit for each value of the low five bits of flags: it costs an object one
// instruction, and whether there are any is asked once.
ghost use Rattle.std.specs.Prelude.{◌≡◌, ◌||◌, []};
ghost use Rattle.model.specs.Constraint.{mandatory};
ghost use Rattle.wire.specs.Step.{object_of};
ghost use Rattle.wire.specs.Mandatory.{shows_mandatory};

use crate::objects::Header;

// The bits.
#[derive(Clone, Copy)]
pub struct FlagsSeen(pub u32);

impl FlagsSeen {
    // With those of one object more.
    #[inline(always)]
    pub(crate) fn with(self, header: Header) -> FlagsSeen
        ensures { shows_mandatory result.0 ≡ shows_mandatory self.0 || mandatory (object_of header []) }
    {
        FlagsSeen(self.0 | (1 << (header.flags % 32) as usize))
    }

    // Whether the flags of some object were those of a mandatory constraint: C=1 and O=0, so that they are 2 modulo 4.
    #[inline(always)]
    pub(crate) fn has_mandatory(self) -> bool
        ensures { result ≡ shows_mandatory self.0 }
    {
        let bits = self.0;
        (bits / 4 % 2 == 1)
            | (bits / 64 % 2 == 1)
            | (bits / 1024 % 2 == 1)
            | (bits / 16384 % 2 == 1)
            | (bits / 262144 % 2 == 1)
            | (bits / 4194304 % 2 == 1)
            | (bits / 67108864 % 2 == 1)
            | (bits / 1073741824 % 2 == 1)
    }
}
