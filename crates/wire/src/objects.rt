// The objects of a container's data (RFC 6551, section 2.1), one after another.
ghost use Rattle.std.specs.Prelude.{◌≡◌, []};
ghost use Rattle.std.specs.Iterator.{YieldsFirstBy, item_count};
ghost use Rattle.model.specs.Object.{field_a, is_constraint, is_recorded, role_of, kind_of};
ghost use Rattle.model.specs.Constraint.{mandatory};
ghost use Rattle.wire.specs.MetricType.{kind_in};
ghost use Rattle.wire.specs.Step.{object_of};
ghost use Rattle.wire.specs.Front.{seen, front, ends_at, LeavesObjects};

use crate::metric_type::MetricType;

// Header bytes 0 to 2 of an object: its type (Routing-MC-Type); the flags P, C and O; the mode R, A and Prec.
#[derive(Clone, Copy)]
pub struct Header {
    pub mctype: u8,
    pub flags: u8,
    pub mode: u8,
}

impl Header {
    // Its type, as far as it is known.
    #[inline(always)]
    pub fn metric_type(self) -> MetricType
        ensures { kind_in result ≡ kind_of self.mctype }
    {
        MetricType::from(self.mctype)
    }

    // Whether the object is a constraint: C=1.
    #[inline(always)]
    pub fn is_constraint(self) -> bool
        ensures { result ≡ is_constraint (role_of self.flags self.mode) }
    {
        self.flags / 2 % 2 == 1
    }

    // Whether it is a recorded metric: C=0 and R=1.
    #[inline(always)]
    pub fn is_recorded(self) -> bool
        ensures { result ≡ is_recorded (role_of self.flags self.mode) }
    {
        (self.flags / 2 % 2 == 0) & (self.mode / 128 % 2 == 1)
    }

    // Whether it is a mandatory constraint: C=1 and O=0.
    #[inline(always)]
    pub fn is_mandatory(self) -> bool
        ensures { result ≡ mandatory (object_of self []) }
    {
        self.flags % 4 == 2
    }

    // The field A.
    #[inline(always)]
    pub fn aggregation(self) -> u8
        ensures { result ≡ field_a (object_of self []) }
    {
        self.mode / 16 % 8
    }
}

// An object: its header, and its body in the bytes that it was read from.
#[derive(Clone, Copy)]
pub struct Object<'a> {
    pub header: Header,
    pub body: &'a [u8],
}

// The whole objects in front of bytes, as a container's data has them.
#[derive(Clone, Copy)]
pub struct Objects<'a> {
    rest: &'a [u8],
}

impl<'a> Objects<'a> {
    // The objects of a container's data.
    #[inline(always)]
    pub fn new(bytes: &'a [u8]) -> Self
        ensures { result.rest.now ≡ bytes.now }
    {
        Objects { rest: bytes }
    }

    // Whether nothing is left: what is left where there is no next object is cut short.
    #[inline(always)]
    pub fn is_done(&self) -> bool
        ensures { result ≡ ends_at self.now.rest.now }
    {
        self.rest.is_empty()
    }
}

impl<'a> Iterator for Objects<'a> {
    type Item = Object<'a>;

    ghost next_gives = { λ s r t. YieldsFirstBy seen (λ u. front u.rest.now) s r t × LeavesObjects s r t };

    ghost remaining = { item_count (λ s. front s.rest.now) };

    #[inline(always)]
    fn next(&mut self) -> Option<Object<'a>> {
        let [mctype, flags, mode, size, rest @ ..] = self.rest else {
            return None;
        };
        let size = *size as usize;
        if rest.len() < size {
            return None;
        }
        let (body, behind) = rest.split_at(size);
        self.rest = behind;
        Some(Object {
            header: Header {
                mctype: *mctype,
                flags: *flags,
                mode: *mode,
            },
            body,
        })
    }
}
