// The values that this hop puts into metrics: a node metric takes own values, a link metric the link's.
ghost use Rattle.std.specs.Prelude.{◌≡◌};
ghost use Rattle.model.specs.Number.{known_if};
ghost use Rattle.model.specs.Object.{kind_of};
ghost use Rattle.model.specs.Update.{local_value, value_or_0};
ghost use Rattle.model.specs.Update as update;
ghost use Rattle.metric.specs.Next.{link_of};
ghost use Rattle.metric.specs.Sums.{sum_in};

use model::{Neighbour, Own};
use wire::MetricType;

// A value that is known where its bit is 1.
fn known_if(bit: u8, value: u32) -> Option<u32>
    ensures { result ≡ known_if bit value }
{
    (bit == 1).then_some(value)
}

// The link's value of a metric that is one number.
#[tactic(auto, unfolding(model::specs::Constraint::link_value))]
pub fn link_value(neighbour: Neighbour, mctype: u8) -> Option<u32>
    ensures { result ≡ link_of neighbour (kind_of mctype) }
{
    match MetricType::from(mctype) {
        MetricType::Throughput => known_if(neighbour.flags / 32 % 2, neighbour.throughput),
        MetricType::Latency => known_if(neighbour.flags / 16 % 2, neighbour.latency),
        MetricType::Etx => known_if(neighbour.flags / 8 % 2, neighbour.etx as u32),
        _ => None,
    }
}

// What this hop puts into a metric.
#[tactic(auto, unfolding(model::specs::Update::local_value))]
pub(crate) fn local_value(own: Own, neighbour: Neighbour, mctype: u8) -> Option<u32>
    ensures { result ≡ local_value own neighbour (kind_of mctype) }
{
    match MetricType::from(mctype) {
        MetricType::NodeState => Some((own.flags % 4) as u32),
        MetricType::NodeEnergy => known_if(own.flags / 4 % 2, own.energy as u32),
        MetricType::HopCount => Some(1),
        MetricType::LinkQuality => Some(neighbour.lql as u32),
        MetricType::LinkColour => Some(neighbour.colour as u32),
        _ => link_value(neighbour, mctype),
    }
}

// What this hop puts into a metric, 0 where it is unknown.
pub fn local_or_0(own: Own, neighbour: Neighbour, mctype: u8) -> u32
    ensures { result ≡ value_or_0 (local_value own neighbour (kind_of mctype)) }
{
    local_value(own, neighbour, mctype).unwrap_or(0)
}

// A sum in a field, by the field's maximum; none where it does not fit.
pub(crate) fn add(most: u32, x: u32, v: u32) -> Option<u32>
    ensures { result ≡ sum_in most x v }
{
    x.checked_add(v).filter(|sum| *sum <= most)
}

// The received value combined with the local one: A=0 adds, 1 takes the larger, 2 the smaller. One function serves every field, by the field's
// maximum; a trait over the widths would refuse the maximum 1 of a flag, which this answers for.
pub fn combine(a: u8, most: u32, x: u32, v: u32) -> u32
    ensures { result ≡ update.combine a most x v }
{
    match a {
        0 => add(most, x, v).unwrap_or(most),
        1 => x.max(v),
        _ => x.min(v),
    }
}
