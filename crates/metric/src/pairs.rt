// The first two bytes of a body: of a constraint, or of an aggregated node metric.
ghost use Rattle.std.specs.Prelude.{◌≡◌};
ghost use Rattle.model.specs.Object.{kind_of, nsa};
ghost use Rattle.model.specs.Update.{combine1};
ghost use Rattle.metric.specs.Next.{clear_first, clear_second, combine_second};

use crate::values;
use wire::MetricType;

// Byte 0 of a constraint's or an aggregated node metric's body, its reserved bits cleared.
pub fn clear_first(mctype: u8, x: u8) -> u8
    ensures { result ≡ clear_first (kind_of mctype) x }
{
    match MetricType::from(mctype) {
        MetricType::NodeEnergy => x % 16,
        MetricType::NodeState | MetricType::HopCount => 0,
        MetricType::LinkQuality | MetricType::LinkColour => 0,
        _ => x,
    }
}

// Byte 1 of a constraint's body, its reserved bits cleared.
pub fn clear_second(mctype: u8, y: u8) -> u8
    ensures { result ≡ clear_second (kind_of mctype) y }
{
    match MetricType::from(mctype) {
        MetricType::NodeState => y % 4,
        _ => y,
    }
}

// Both flags of NSA, combined with the node's own.
fn combine_flags(a: u8, v: u8, y: u8) -> u8
    ensures { result ≡ combine1 nsa a v y }
{
    let high = values::combine(a, 1, (y / 2 % 2) as u32, (v / 2 % 2) as u32);
    let low = values::combine(a, 1, (y % 2) as u32, (v % 2) as u32);
    (high * 2 + low) as u8
}

// Byte 1 of an aggregated node metric's body, combined with the local value.
pub fn combine_second(mctype: u8, a: u8, v: u8, y: u8) -> u8
    ensures { result ≡ combine_second (kind_of mctype) a v y }
{
    match MetricType::from(mctype) {
        MetricType::NodeState => combine_flags(a, v, y),
        MetricType::NodeEnergy | MetricType::HopCount => values::combine(
            a, 255, y as u32, v as u32,
        ) as u8,
        _ => y,
    }
}
