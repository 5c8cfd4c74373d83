// The levels of a recorded LQL metric: sub-objects of three bits Val and five bits counter.
ghost use Rattle.std.specs.Prelude.{◌≡◌};
ghost use Rattle.model.specs.Number.{any_of};
ghost use Rattle.metric.specs.Next.{counts_in};

// Whether a sub-object has the level and a counter below 31.
pub fn counts_in(level: u8, sub: u8) -> bool
    ensures { result ≡ counts_in level sub }
{
    (sub / 32 == level) & (sub % 32 < 31)
}

// Whether some sub-object gains the hop's count.
#[inline(never)]
pub(crate) fn is_counted(level: u8, subs: &[u8]) -> bool
    ensures { result ≡ any_of (counts_in level) subs.now }
{
    subs.iter().any(|sub| counts_in(level, *sub))
}
