// The sub-objects of colour, two bytes each: ten bits colour, and six bits counter where they are recorded; in a constraint five reserved
// bits and I.
ghost use Rattle.std.specs.Prelude.{◌≡◌};
ghost use Rattle.metric.specs.Colours.{gains_in, place_of, clear_third};

// Whether a sub-object has the colour and a counter below 63.
fn gains_in(colour: u16, high: u8, low: u8) -> bool
    ensures { result ≡ gains_in colour high low }
{
    ((high as u16) * 4 + (low / 64) as u16 == colour) & (low % 64 < 63)
}

// The index of the first sub-object that gains the hop's count; where none does, of the end, or of a lone last byte.
#[inline(never)]
pub fn place_of(colour: u16, subs: &[u8]) -> usize
    ensures { result ≡ place_of colour subs.now }
{
    let mut at: usize = 0;
    let mut rest = subs;
    while let [high, low, behind @ ..] = rest {
        if gains_in(colour, *high, *low) {
            return at;
        }
        at += 2;
        rest = behind;
    }
    at
}

// The second byte of a constraint's sub-object, its reserved bits cleared.
pub fn clear_third(z: u8) -> u8
    ensures { result ≡ clear_third z }
{
    z / 64 * 64 + z % 2
}
