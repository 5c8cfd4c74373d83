// Bars 18 and 19: when a mandatory constraint is met, and the first object of a run at which one is not.
ghost use Rattle.std.specs.Prelude.{◌≡◌, ◌+◌, ◌/◌, true, ◌&&◌, leb, ltb};
ghost use Rattle.model.specs.Number.{satisfies};
ghost use Rattle.model.specs.Object.{throughput, latency, etx};
ghost use Rattle.model.specs.Table.{row};
ghost use Rattle.model.specs.Reading.{fixed_shape};
ghost use Rattle.model.specs.Constraint.{is_aggregator, is_overloaded, energy_in, link_value, met_nsa, met_ne, met_colour, met, constraint_bar};
ghost use Rattle.wire.specs.MetricType.{kind_in};
ghost use Rattle.wire.specs.Front.{seen};
ghost use Rattle.verdict.specs.Judged.{Tabled, WellFormed, FirstBarring, object_bar_in};

use model::{Bar, Neighbour, ObjectBar, Summary};
use wire::{Containers, MetricType, Object, Objects};

// One function for the next four would take the field and its bit, and say no more than `then_some` does.

// The neighbour's energy, where it is known.
fn energy_of(neighbour: &Neighbour) -> Option<u8>
    ensures { result ≡ energy_in neighbour.now.flags neighbour.now.energy }
{
    (neighbour.flags / 4 % 2 == 1).then_some(neighbour.energy)
}

// The link's throughput, where it is known.
#[tactic(auto, unfolding(model::specs::Constraint::link_value))]
fn throughput_of(neighbour: &Neighbour) -> Option<u32>
    ensures { result ≡ link_value neighbour.now throughput }
{
    (neighbour.flags / 32 % 2 == 1).then_some(neighbour.throughput)
}

// The link's latency, where it is known.
#[tactic(auto, unfolding(model::specs::Constraint::link_value))]
fn latency_of(neighbour: &Neighbour) -> Option<u32>
    ensures { result ≡ link_value neighbour.now latency }
{
    (neighbour.flags / 16 % 2 == 1).then_some(neighbour.latency)
}

// The link's ETX, where it is known.
#[tactic(auto, unfolding(model::specs::Constraint::link_value))]
fn etx_of(neighbour: &Neighbour) -> Option<u16>
    ensures { result ≡ link_value neighbour.now etx }
{
    (neighbour.flags / 8 % 2 == 1).then_some(neighbour.etx)
}

// NSA: the aggregator bit asks for an aggregating neighbour, the overload bit for one that is not overloaded.
fn meets_nsa(neighbour: &Neighbour, asked: u8) -> bool
    ensures { result ≡ met_nsa (is_aggregator neighbour.now.flags) (is_overloaded neighbour.now.flags) asked }
{
    ((asked / 2 % 2 != 1) | (neighbour.flags / 2 % 2 == 1))
        & ((asked % 2 != 1) | (neighbour.flags % 2 != 1))
}

// NE, I=1: the type is T and, if E=1, the energy is above E_E. I=0: the type is not T, or E=1 and the energy is known and not below E_E.
fn meets_ne(neighbour: &Neighbour, flags: u8, limit: u8) -> bool
    ensures { result ≡ met_ne neighbour.now.nodetype (energy_in neighbour.now.flags neighbour.now.energy) flags limit }
{
    let same = neighbour.nodetype == flags / 2 % 4;
    let estimated = flags % 2 == 1;
    let energy = energy_of(neighbour);
    if flags / 8 % 2 == 1 {
        return same && (!estimated || energy.is_some_and(|energy| limit < energy));
    }
    !(same && (!estimated || energy.is_none_or(|energy| energy < limit)))
}

// HP: the container's own HP metric has a count below the limit.
fn meets_hp(summary: &Summary, limit: u8) -> bool
    ensures { result ≡ satisfies (λ v. ltb v limit) summary.now.hops }
{
    summary.hops.is_some_and(|count| count < limit)
}

// Throughput: the link's value is at least the limit.
fn meets_throughput(neighbour: &Neighbour, limit: u32) -> bool
    ensures { result ≡ satisfies (λ v. leb limit v) (link_value neighbour.now throughput) }
{
    throughput_of(neighbour).is_some_and(|link| limit <= link)
}

// Latency: the value received and the link's are together at most the limit.
fn meets_latency(neighbour: &Neighbour, received: u32, limit: u32) -> bool
    ensures { result ≡ satisfies (λ v. leb (received + v) limit) (link_value neighbour.now latency) }
{
    latency_of(neighbour).is_some_and(|link| received as u64 + link as u64 <= limit as u64)
}

// ETX: the value received and the link's are together at most the limit.
fn meets_etx(neighbour: &Neighbour, received: u16, limit: u16) -> bool
    ensures { result ≡ satisfies (λ v. leb (received + v) limit) (link_value neighbour.now etx) }
{
    etx_of(neighbour).is_some_and(|link| received as u32 + link as u32 <= limit as u32)
}

// LQL: the link's value is from 1 up to Val.
fn meets_lql(neighbour: &Neighbour, asked: u8) -> bool
    ensures { result ≡ leb 1 neighbour.now.lql && leb neighbour.now.lql (asked / 32) }
{
    (1 <= neighbour.lql) & (neighbour.lql <= asked / 32)
}

// Colour, I=1: every bit that is asked for is set in the link's colour; I=0: some is not.
fn meets_colour(neighbour: &Neighbour, high: u8, low: u8) -> bool
    ensures { result ≡ met_colour neighbour.now.colour high low }
{
    let colour = neighbour.colour as u32;
    let asked = high as u32 * 4 + (low / 64) as u32;
    let has = (asked | colour) == colour;
    if low % 2 == 1 { has } else { !has }
}

// Whether a constraint is met whose body is as tabled; one of unknown type is not.
fn is_met(neighbour: &Neighbour, summary: &Summary, metric_type: MetricType, body: &[u8]) -> bool
    requires { fixed_shape (row (kind_in metric_type)) body.now ≡ true }
    ensures { result ≡ met neighbour.now summary.now (kind_in metric_type) body.now }
{
    match (metric_type, body) {
        (MetricType::NodeState, [_, asked, ..]) => meets_nsa(neighbour, *asked),
        (MetricType::NodeEnergy, [flags, limit, ..]) => meets_ne(neighbour, *flags, *limit),
        (MetricType::HopCount, [_, limit, ..]) => meets_hp(summary, *limit),
        (MetricType::Throughput, [a, b, c, d]) => {
            meets_throughput(neighbour, u32::from_be_bytes([*a, *b, *c, *d]))
        }
        (MetricType::Latency, [a, b, c, d]) => {
            meets_latency(
                neighbour,
                summary.latency,
                u32::from_be_bytes([*a, *b, *c, *d]),
            )
        }
        (MetricType::LinkQuality, [_, asked, ..]) => meets_lql(neighbour, *asked),
        (MetricType::Etx, [a, b]) => {
            meets_etx(neighbour, summary.etx, u16::from_be_bytes([*a, *b]))
        }
        (MetricType::LinkColour, [_, high, low, ..]) => meets_colour(neighbour, *high, *low),
        _ => false,
    }
}

// Bar 18 or 19 at an object. Most objects are no mandatory constraints.
fn check_object(neighbour: &Neighbour, summary: &Summary, object: Object) -> Result<(), ObjectBar>
    requires { Tabled (seen object) }
    ensures { object_bar_in result ≡ constraint_bar neighbour.now summary.now (seen object.entry) }
{
    if !object.header.is_mandatory() {
        return Ok(());
    }
    match object.header.metric_type() {
        MetricType::Unknown => Err(ObjectBar::Unknown),
        known if is_met(neighbour, summary, known, object.body) => Ok(()),
        _ => Err(ObjectBar::Unmet),
    }
}

// The first bar 18 or 19 in a well-formed run: its objects outside, the tests of a constraint within. The place is counted by hand,
// since one iterator over the objects of all containers, enumerated, takes longer.
pub(crate) fn check(neighbour: &Neighbour, summary: &Summary, run: &[u8]) -> Result<(), Bar>
    requires { WellFormed run.now }
    ensures { FirstBarring neighbour.now summary.now run.now result }
{
    let mut place: u16 = 0;
    let mut containers = Containers::new(run);
    'run: {
        while let Some(data) = containers.next() {
            let mut objects = Objects::new(data);
            while let Some(object) = objects.next() {
                if let Err(bar) = check_object(neighbour, summary, object) {
                    break 'run Err(Bar::AtObject { bar, place });
                }
                place += 1;
            }
        }
        Ok(())
    }
}
