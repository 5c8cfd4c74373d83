// The levels of a recorded LQL metric: sub-objects of three bits Val and five bits counter, behind a reserved byte.
ghost use Rattle.std.specs.Prelude.{◌+◌, ◌≤◌, length};
ghost use Rattle.model.specs.Update.{count_level};
ghost use Rattle.wire.specs.Put.{Put};

use crate::bytes;

// Puts sub-objects with the hop's level counted.
#[inline(never)]
pub(crate) fn put_levels(out: &mut [u8], at: usize, level: u8, subs: &[u8]) -> usize
    requires level_bound { level ≤ 7 }
    requires subs_in_bounds { at + length (count_level level subs.now) ≤ length out.old }
    ensures { Put out.old at (count_level level subs.now) result out.new }
{
    for (i, sub) in subs.iter().enumerate() {
        if metric::counts_in(level, *sub) {
            out[at + i] = *sub + 1;
            return bytes::put_bytes(out, at + i + 1, &subs[i + 1..]);
        }
        out[at + i] = *sub;
    }
    let end = at + subs.len();
    out[end] = level * 32 + 1;
    end + 1
}
