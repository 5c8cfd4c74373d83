// The uses of known types that were seen, a bit each: types 1 to 8 have bits 0 to 15, a metric's before a constraint's.
ghost use Rattle.std.specs.Prelude.{◌≡◌, ◌<◌, true, []};
ghost use Rattle.model.specs.Object.{known, kind_of};
ghost use Rattle.wire.specs.Step.{object_of};
ghost use Rattle.wire.specs.Seen.{use_index, has_use, with_use};

use crate::objects::Header;

// The bits.
#[derive(Clone, Copy)]
pub struct Uses(pub u32);

// The index of the bit for the use of an object of known type. Type 0 would share those of type 1.
#[inline(always)]
fn use_index(header: Header) -> usize
    requires { known (kind_of header.mctype) ≡ true }
    ensures { (result < 16) × (result ≡ use_index (object_of header [])) }
{
    (header.mctype - 1) as usize * 2 + (header.flags / 2 % 2) as usize
}

impl Uses {
    // Whether the use of an object was seen; that of an unknown type never was.
    #[inline(always)]
    pub(crate) fn has(self, header: Header) -> bool
        ensures { result ≡ has_use self.0 (object_of header []) }
    {
        if !header.metric_type().is_known() {
            return false;
        }
        (self.0 as u64 >> use_index(header)) % 2 == 1
    }

    // With the use of one object more; an unknown type leaves them as they are.
    #[inline(always)]
    pub(crate) fn with(self, header: Header) -> Uses
        ensures { result.0 ≡ with_use self.0 (object_of header []) }
    {
        if !header.metric_type().is_known() {
            return self;
        }
        Uses(self.0 | (1 << use_index(header)))
    }
}
