// Header bytes for the next hop.
ghost use Rattle.std.specs.Prelude.{◌≡◌};
ghost use Rattle.model.specs.Object.{kind_of, role_of};
ghost use Rattle.model.specs.Update.{adds_nothing, next_flags, next_mode};

use crate::values;
use model::Neighbour;
use wire::{Header, MetricType};

// Whether this hop adds nothing to a recorded metric: its type is not known, or the link's value is not.
fn adds_nothing(neighbour: Neighbour, mctype: u8) -> bool
    ensures { result ≡ adds_nothing neighbour (kind_of mctype) }
{
    match MetricType::from(mctype) {
        MetricType::Throughput | MetricType::Latency | MetricType::Etx => values::link_value(
            neighbour, mctype,
        ).is_none(),
        metric_type => !metric_type.is_known(),
    }
}

// Byte 1: reserved bits are cleared, and O when C=0; P is set where a recorded metric gains nothing.
pub fn next_flags(neighbour: Neighbour, header: Header) -> u8
    ensures { result ≡ next_flags (role_of header.flags header.mode) (adds_nothing neighbour (kind_of header.mctype)) header.flags }
{
    if header.is_constraint() {
        return header.flags % 8;
    }
    if !header.is_recorded() {
        return header.flags / 4 % 2 * 4;
    }
    if adds_nothing(neighbour, header.mctype) {
        return 4;
    }
    header.flags / 4 % 2 * 4
}

// Byte 2: R is cleared when C=1.
pub fn next_mode(header: Header) -> u8
    ensures { result ≡ next_mode (role_of header.flags header.mode) header.mode }
{
    if header.is_constraint() {
        return header.mode % 128;
    }
    header.mode
}
