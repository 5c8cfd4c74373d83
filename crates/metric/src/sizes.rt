// How much longer an object's body is for the next hop.
ghost use Rattle.std.specs.Prelude.{◌≡◌, ◌+◌, ◌/◌, ◌%◌, ◌≤◌, length, cond, eqb};
ghost use Rattle.model.specs.declared.Own.{Own};
ghost use Rattle.model.specs.Object.{kind_of, role_of};
ghost use Rattle.model.specs.Update.{next_body, recorded_body, counted_body, coloured_body, sub_object};
ghost use Rattle.metric.specs.Next.{link_of};

use crate::{colours, levels, values};
use model::Neighbour;
use wire::{Header, MetricType};

// The bytes that a recorded LQL metric gains: none where a level counts the hop.
fn level_growth(level: u8, body: &[u8]) -> usize
    ensures result_len { length body.now + result ≡ length (counted_body level body.now) }
    ensures small { result ≤ 4 }
{
    match body {
        [_, levels @ ..] if !levels::is_counted(level, levels) => 1,
        _ => 0,
    }
}

// The bytes that a recorded colour metric gains: none where a sub-object counts the hop.
fn colour_growth(colour: u16, body: &[u8]) -> usize
    ensures result_len { length body.now + result ≡ length (coloured_body colour body.now) }
    ensures small { result ≤ 4 }
{
    match body {
        [_, subs @ ..] if colours::place_of(colour, subs) == subs.len() => 2,
        _ => 0,
    }
}

// The bytes that a recorded metric of one number gains: none where the link's value is not known.
fn value_growth(neighbour: Neighbour, mctype: u8) -> usize
    ensures small { result ≤ 4 }
    ensures result_len { result ≡ length (sub_object (cond (eqb mctype 7) 2 4) (link_of neighbour (kind_of mctype))) }
{
    match values::link_value(neighbour, mctype) {
        None => 0,
        Some(_) if mctype == 7 => 2,
        Some(_) => 4,
    }
}

// The bytes that a recorded metric gains.
#[tactic(auto, unfolding(model::specs::Update::recorded_body))]
fn recorded_growth(neighbour: Neighbour, mctype: u8, body: &[u8]) -> usize
    ensures result_len { (own : Own) → length body.now + result ≡ length (recorded_body own neighbour (kind_of mctype) body.now) }
    ensures small { result ≤ 4 }
{
    match MetricType::from(mctype) {
        MetricType::NodeEnergy => 2,
        MetricType::LinkQuality => level_growth(neighbour.lql, body),
        MetricType::LinkColour => colour_growth(neighbour.colour, body),
        _ => value_growth(neighbour, mctype),
    }
}

// The bytes that a body gains for the next hop.
pub fn growth(neighbour: Neighbour, header: Header, body: &[u8]) -> usize
    ensures result_len { (own : Own) → length body.now + result ≡ length (next_body own neighbour (kind_of header.mctype) (role_of header.flags header.mode) (header.mode / 16 % 8) body.now) }
    ensures small { result ≤ 4 }
{
    if header.is_recorded() {
        return recorded_growth(neighbour, header.mctype, body);
    }
    0
}
