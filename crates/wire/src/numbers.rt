// Numbers in the bodies of metrics. One function for both widths would be no plainer: its result has the width of its caller's field.
ghost use Rattle.std.specs.Prelude.{◌≡◌};
ghost use Rattle.wire.specs.Number.{number_in};

// The number in a body of four bytes; 0 for a body of another length.
#[inline(always)]
pub fn number_4(body: &[u8]) -> u32
    ensures { result ≡ number_in 4 body.now }
{
    match body {
        [a, b, c, d] => u32::from_be_bytes([*a, *b, *c, *d]),
        _ => 0,
    }
}

// The number in a body of two bytes; 0 for a body of another length.
#[inline(always)]
pub fn number_2(body: &[u8]) -> u16
    ensures { result ≡ number_in 2 body.now }
{
    match body {
        [a, b] => u16::from_be_bytes([*a, *b]),
        _ => 0,
    }
}
