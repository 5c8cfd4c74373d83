// Text that is put at the start of an output, piece by piece.
ghost use Rattle.std.specs.Prelude.{◌≡◌, ◌+◌, ◌<◌, ◌≤◌, [], ◌∷◌, ◌++◌, length};
ghost use Rattle.model.specs.Listing.{line, object_line, refused_word};
ghost use Rattle.wire.specs.Front.{seen};
ghost use Rattle.listing.specs.Line.{digit_at, number_and};
ghost use Rattle.listing.specs.Puts.{Puts};

use wire::Object;

// An output, and how many bytes at its start are text.
#[derive(Drop)]
pub(crate) struct Writer<'a> {
    pub(crate) out: &'a mut [u8],
    pub(crate) used: usize,
    ghost inside: { used ≤ length out.now },
}

impl<'a> Writer<'a> {
    // Puts a byte.
    fn byte(&mut self, byte: u8)
        requires { self.old.used < length self.old.out.now }
        ensures same_output { self.new.out.ghost_name ≡ self.old.out.ghost_name }
        ensures put { Puts self.old.out.now self.old.used (byte ∷ []) self.new.out.now self.new.used }
    {
        self.out[self.used] = byte;
        self.used += 1;
    }

    // Puts bytes.
    fn text(&mut self, bytes: &[u8])
        requires { self.old.used + length bytes.now ≤ length self.old.out.now }
        ensures same_output { self.new.out.ghost_name ≡ self.old.out.ghost_name }
        ensures put { Puts self.old.out.now self.old.used bytes.now self.new.out.now self.new.used }
    {
        let end = self.used + bytes.len();
        self.out[self.used..end].copy_from_slice(bytes);
        self.used = end;
    }

    // Puts the digit of a number at a power of ten, where the number reaches it.
    fn digit(&mut self, n: u8, power: u8)
        requires room { self.old.used < length self.old.out.now }
        requires nonzero { 0 < power }
        ensures same_output { self.new.out.ghost_name ≡ self.old.out.ghost_name }
        ensures put { Puts self.old.out.now self.old.used (digit_at n power) self.new.out.now self.new.used }
    {
        if power <= n {
            self.byte(b'0' + n / power % 10);
        }
    }

    // Puts a number in decimal and a byte behind it; by hand, since the contract of `write!` does not say which bytes it writes.
    fn number(&mut self, n: u8, end: u8)
        requires { self.old.used + 4 ≤ length self.old.out.now }
        ensures same_output { self.new.out.ghost_name ≡ self.old.out.ghost_name }
        ensures put { Puts self.old.out.now self.old.used (number_and n end) self.new.out.now self.new.used }
    {
        self.digit(n, 100);
        self.digit(n, 10);
        self.byte(b'0' + n % 10);
        self.byte(end);
    }

    // Puts the line of an object.
    pub(crate) fn line(&mut self, object: Object)
        requires room { self.old.used + 28 ≤ length self.old.out.now }
        requires short { length object.body.now ≤ 255 }
        ensures same_output { self.new.out.ghost_name ≡ self.old.out.ghost_name }
        ensures put { Puts self.old.out.now self.old.used (object_line (seen object.entry)) self.new.out.now self.new.used }
    {
        let header = object.header;
        self.number(header.mctype, b' ');
        self.number(header.flags / 2 % 2, b' ');
        self.number(header.flags % 2, b' ');
        self.number(header.mode / 128 % 2, b' ');
        self.number(header.mode / 16 % 8, b' ');
        self.number(header.mode % 16, b' ');
        self.number(object.body.len() as u8, b'\n');
    }

    // Puts the line of a container that is refused.
    pub(crate) fn refused(&mut self, number: u8)
        requires { self.old.used + 12 ≤ length self.old.out.now }
        ensures same_output { self.new.out.ghost_name ≡ self.old.out.ghost_name }
        ensures put { Puts self.old.out.now self.old.used (refused_word ++ line number []) self.new.out.now self.new.used }
    {
        self.text(b"refused ");
        self.number(number, b'\n');
    }
}
