// Bytes and numbers that are put into an output at an index; each function answers the index behind them.
ghost use Rattle.std.specs.Prelude.{◌+◌, ◌≤◌, ◌<◌, ◌∷◌, length, drop};
ghost use Rattle.model.specs.Number.{big_endian};
ghost use Rattle.wire.specs.Put.{Put};

// Puts a run of bytes, in place where it is called: for those whose number the compiler knows.
#[inline(always)]
fn put_in_place(out: &mut [u8], at: usize, bytes: &[u8]) -> usize
    requires { at + length bytes.now ≤ length out.old }
    ensures { Put out.old at bytes.now result out.new }
{
    let end = at + bytes.len();
    out[at..end].copy_from_slice(bytes);
    end
}

// Puts a run of bytes by a call, since a copy of any length that is made in place takes some 350 bytes. A loop, since a copy of slices
// of any length calls `memmove`, which the libraries need nowhere else.
#[inline(never)]
fn put_by_call(out: &mut [u8], at: usize, bytes: &[u8]) -> usize
    requires { at + length bytes.now ≤ length out.old }
    ensures { Put out.old at bytes.now result out.new }
{
    for (i, byte) in bytes.iter().enumerate() {
        out[at + i] = *byte;
    }
    at + bytes.len()
}

// Puts a run of bytes. Behind what is changed there are mostly none.
#[inline(always)]
pub(crate) fn put_bytes(out: &mut [u8], at: usize, bytes: &[u8]) -> usize
    requires { at + length bytes.now ≤ length out.old }
    ensures { Put out.old at bytes.now result out.new }
{
    if bytes.is_empty() {
        return at;
    }
    put_by_call(out, at, bytes)
}

// Puts a body whose first two bytes are changed.
pub(crate) fn put_two(out: &mut [u8], at: usize, first: u8, second: u8, body: &[u8]) -> usize
    requires { (2 ≤ length body.now) × (at + length body.now ≤ length out.old) }
    ensures { Put out.old at (first ∷ second ∷ drop 2 body.now) result out.new }
{
    out[at] = first;
    out[at + 1] = second;
    put_bytes(out, at + 2, &body[2..])
}

// Puts a number in WIDTH bytes, high byte first.
#[inline(always)]
pub(crate) fn put_number<const WIDTH: usize>(out: &mut [u8], at: usize, n: u32) -> usize
    requires width { WIDTH ≤ 4 }
    requires room { at + WIDTH ≤ length out.old }
    ensures { Put out.old at (big_endian WIDTH n) result out.new }
{
    let bytes = n.to_be_bytes();
    put_in_place(out, at, &bytes[4 - WIDTH..])
}
