// Leaf answers 31 to 34 and 36 at an object.
ghost use Rattle.std.specs.Prelude.{◌≡◌, ◌<◌, cond};
ghost use Rattle.model.specs.Object.{kind_of};
ghost use Rattle.model.specs.Table.{allowed};
ghost use Rattle.model.specs.Update.{no_energy, is_beyond, object_leaf};
ghost use Rattle.wire.specs.Step.{object_of};
ghost use Rattle.metric.specs.Leaf.{leaf_number};
ghost use Rattle.metric.specs.Next.{full_in, over_in, valued_leaf, aggregated_leaf};

use crate::leaf::Leaf;
use crate::values;
use model::{Neighbour, Own};
use wire::{Header, MetricType};

// Whether the table allows a type to be aggregated by an A below 8.
fn is_allowed(mctype: u8, a: u8) -> bool
    requires { a < 8 }
    ensures { result ≡ allowed (kind_of mctype) a }
{
    let row = MetricType::from(mctype).row();
    (row.allows >> a) % 2 == 1
}

// Whether a body is that of an NE with E=0.
fn has_no_energy(mctype: u8, body: &[u8]) -> bool
    ensures { result ≡ no_energy (kind_of mctype) body.now }
{
    match (MetricType::from(mctype), body) {
        (MetricType::NodeEnergy, [flags, ..]) => *flags % 2 == 0,
        (MetricType::NodeEnergy, []) => true,
        _ => false,
    }
}

// An HP metric whose count is 255 can count no hop.
fn check_count(mctype: u8, body: &[u8]) -> Result<(), Leaf>
    ensures { leaf_number result ≡ cond (full_in (kind_of mctype) body.now) 34 0 }
{
    match (MetricType::from(mctype), body) {
        (MetricType::HopCount, [_, 255, ..]) => Err(Leaf::Count),
        _ => Ok(()),
    }
}

// Whether the sum of a throughput or latency with the link's value, if that is known, is beyond its field.
fn is_beyond(neighbour: Neighbour, mctype: u8, body: &[u8]) -> bool
    ensures { result ≡ is_beyond neighbour (kind_of mctype) body.now }
{
    let Some(v) = values::link_value(neighbour, mctype) else {
        return false;
    };
    match MetricType::from(mctype) {
        MetricType::Throughput | MetricType::Latency => values::add(
            4294967295,
            wire::number_4(body),
            v,
        ).is_none(),
        _ => false,
    }
}

// A sum (A=0) has to fit its field.
fn check_sum(neighbour: Neighbour, mctype: u8, a: u8, body: &[u8]) -> Result<(), Leaf>
    ensures { leaf_number result ≡ over_in neighbour (kind_of mctype) a body.now }
{
    if a == 0 && is_beyond(neighbour, mctype, body) {
        return Err(Leaf::Sum);
    }
    Ok(())
}

// An aggregated metric takes a value, counts and adds up within its field.
fn check_value(own: Own, neighbour: Neighbour, mctype: u8, a: u8, body: &[u8]) -> Result<(), Leaf>
    ensures { leaf_number result ≡ valued_leaf own neighbour (kind_of mctype) a body.now }
{
    if values::local_value(own, neighbour, mctype).is_none() || has_no_energy(mctype, body) {
        return Err(Leaf::Value);
    }
    check_count(mctype, body)?;
    check_sum(neighbour, mctype, a, body)
}

// An aggregated metric is of known type, and its A one that the table allows.
fn check_aggregated(
    own: Own,
    neighbour: Neighbour,
    mctype: u8,
    a: u8,
    body: &[u8],
) -> Result<(), Leaf>
    requires { a < 8 }
    ensures { leaf_number result ≡ aggregated_leaf own neighbour (kind_of mctype) a body.now }
{
    if !MetricType::from(mctype).is_known() {
        return Err(Leaf::Unknown);
    }
    if !is_allowed(mctype, a) {
        return Err(Leaf::Aggregation);
    }
    check_value(own, neighbour, mctype, a, body)
}

// The lowest of 31 to 34 and 36 at an object, where there is one.
pub fn object_leaf(own: Own, neighbour: Neighbour, header: Header, body: &[u8]) -> Result<(), Leaf>
    ensures { leaf_number result ≡ object_leaf own neighbour (object_of header body.now) }
{
    if header.is_constraint() {
        return Ok(());
    }
    if header.is_recorded() {
        return check_count(header.mctype, body);
    }
    check_aggregated(own, neighbour, header.mctype, header.mode / 16 % 8, body)
}
