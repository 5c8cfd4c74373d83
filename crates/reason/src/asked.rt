// Bar 19: what a constraint that is not met asks, and what the neighbour, the link or the path has.
ghost use Rattle.std.specs.Prelude.{◌≡◌, ◌+◌, get_or};
ghost use Rattle.reason.specs.Finding.{nsa_finding, energy_finding, ne_finding, hops_finding, throughput_finding, level_finding, colour_finding, object_finding};
ghost use Rattle.std.proofs.Math.Option.{some};
ghost use Rattle.wire.specs.Front.{seen};
ghost use Rattle.reason.specs.Way.{number_of};
ghost use Rattle.reason.specs.Told.{by_number, finding_in, limit_told};
ghost use Rattle.model.specs.Number.{known_if};

use crate::findings::{Shortfall, Way};
use model::{Neighbour, Summary};
use wire::Object;

// A byte of a body; 0 behind its end.
fn byte_at(body: &[u8], i: usize) -> u8
    ensures { result ≡ get_or body.now i 0 }
{
    if i < body.len() {
        return body[i];
    }
    0
}

// NSA: by the aggregator bit first.
#[tactic(auto, unfolding(crate::specs::Finding::nsa_finding))]
fn of_nsa(neighbour: Neighbour, asked: u8) -> Shortfall
    ensures { by_number result ≡ nsa_finding neighbour.flags asked }
{
    if (asked / 2 % 2 == 1) & (neighbour.flags / 2 % 2 != 1) {
        return Shortfall::of(Way::Aggregator, 0, 0, 0);
    }
    Shortfall::of(Way::Overloaded, 0, 0, 0)
}

// The energy of a neighbour of a type beside what is asked, in the way for a known or an unknown one.
#[tactic(auto, unfolding(crate::specs::Finding::energy_finding))]
fn of_energy(neighbour: Neighbour, known: Way, unknown: Way, nodetype: u8, limit: u8) -> Shortfall
    ensures { by_number result ≡ energy_finding neighbour (number_of known) (number_of unknown) nodetype limit }
{
    if neighbour.flags / 4 % 2 == 1 {
        return Shortfall::of(known, nodetype, limit, neighbour.energy);
    }
    Shortfall::of(unknown, nodetype, limit, 0)
}

// NE: by the type, then by the energy.
#[tactic(auto, unfolding(crate::specs::Finding::ne_finding))]
fn of_ne(neighbour: Neighbour, flags: u8, limit: u8) -> Shortfall
    ensures { by_number result ≡ ne_finding neighbour flags limit }
{
    let nodetype = flags / 2 % 4;
    if flags / 8 % 2 == 1 {
        if neighbour.nodetype != nodetype {
            return Shortfall::of(Way::OtherType, 0, nodetype, neighbour.nodetype);
        }
        return of_energy(
            neighbour,
            Way::LittleEnergy,
            Way::UnknownEnergy,
            nodetype,
            limit,
        );
    }
    if flags % 2 == 1 {
        return of_energy(
            neighbour,
            Way::BarredEnergy,
            Way::BarredUnknown,
            nodetype,
            limit,
        );
    }
    Shortfall::of(Way::BarredType, 0, nodetype, neighbour.nodetype)
}

// HP: by the count that a run tells.
fn of_hops(hops: Option<u8>, limit: u8) -> Shortfall
    ensures { by_number result ≡ hops_finding hops limit }
{
    match hops {
        Some(count) => Shortfall::of(Way::Hops, 0, limit, count),
        None => Shortfall::of(Way::UnknownHops, 0, limit, 0),
    }
}

// Throughput: the link's.
#[tactic(auto, unfolding(crate::specs::Finding::throughput_finding))]
fn of_throughput(neighbour: Neighbour, limit: u32) -> Shortfall
    ensures { by_number result ≡ throughput_finding neighbour limit }
{
    let asked = limit as u64;
    if neighbour.flags / 32 % 2 == 1 {
        return Shortfall {
            way: Way::Throughput,
            which: 0,
            asked,
            found: neighbour.throughput as u64,
        };
    }
    Shortfall {
        way: Way::UnknownThroughput,
        which: 0,
        asked,
        found: 0,
    }
}

// A number that is known where a bit is set.
fn if_set(bit: u8, value: u32) -> Option<u32>
    ensures { result ≡ known_if bit value }
{
    if bit == 1 {
        return Some(value);
    }
    None
}

// The ways of a limit on what is added up along the path: the link's value is above it, the path's is, the link's is unknown.
#[derive(Clone, Copy)]
pub struct LimitWays {
    pub link: Way,
    pub path: Way,
    pub unknown: Way,
}

const LATENCY: LimitWays = LimitWays {
    link: Way::Latency,
    path: Way::PathLatency,
    unknown: Way::UnknownLatency,
};

const ETX: LimitWays = LimitWays {
    link: Way::Etx,
    path: Way::PathEtx,
    unknown: Way::UnknownEtx,
};

// Latency and ETX: the link's, with what was received of the path, where the link's is known.
fn of_limit(ways: LimitWays, received: u32, limit: u32, value: Option<u32>) -> Shortfall
    requires path { number_of ways.path ≡ number_of ways.link + 1 }
    requires unknown { number_of ways.unknown ≡ number_of ways.link + 2 }
    ensures { by_number result ≡ limit_told (number_of ways.link) received limit value }
{
    let which = received as u64;
    let asked = limit as u64;
    match value {
        None => Shortfall {
            way: ways.unknown,
            which,
            asked,
            found: 0,
        },
        Some(value) => {
            let found = which + value as u64;
            let way = if received == 0 { ways.link } else { ways.path };
            Shortfall {
                way,
                which,
                asked,
                found,
            }
        }
    }
}

// LQL: the link's.
#[tactic(auto, unfolding(crate::specs::Finding::level_finding))]
fn of_level(neighbour: Neighbour, asked: u8) -> Shortfall
    ensures { by_number result ≡ level_finding neighbour asked }
{
    if neighbour.lql == 0 {
        return Shortfall::of(Way::UnknownQuality, 0, asked / 32, 0);
    }
    Shortfall::of(Way::Quality, 0, asked / 32, neighbour.lql)
}

// Colour: the link's, by I.
#[tactic(auto, unfolding(crate::specs::Finding::colour_finding))]
fn of_colour(neighbour: Neighbour, high: u8, low: u8) -> Shortfall
    ensures { by_number result ≡ colour_finding neighbour high low }
{
    Shortfall {
        way: if low % 2 == 1 {
            Way::LacksColour
        } else {
            Way::HasColour
        },
        which: 0,
        asked: high as u64 * 4 + (low / 64) as u64,
        found: neighbour.colour as u64,
    }
}

// What an unmet constraint asks, and what was found; nothing for an unknown type.
#[tactic(auto, unfolding(crate::specs::Finding::asked_with))]
pub(crate) fn of_object(neighbour: Neighbour, summary: Summary, object: Object) -> Option<Shortfall>
    ensures { finding_in result ≡ object_finding neighbour summary (some (seen object.entry)) }
{
    let flags = neighbour.flags;
    let body = object.body;
    Some(match object.header.mctype {
        1 => of_nsa(neighbour, byte_at(body, 1)),
        2 => of_ne(neighbour, byte_at(body, 0), byte_at(body, 1)),
        3 => of_hops(summary.hops, byte_at(body, 1)),
        4 => of_throughput(neighbour, wire::number_4(body)),
        5 => of_limit(
            LATENCY,
            summary.latency,
            wire::number_4(body),
            if_set(flags / 16 % 2, neighbour.latency),
        ),
        6 => of_level(neighbour, byte_at(body, 1)),
        7 => of_limit(
            ETX,
            summary.etx as u32,
            wire::number_2(body) as u32,
            if_set(flags / 8 % 2, neighbour.etx as u32),
        ),
        8 => of_colour(neighbour, byte_at(body, 1), byte_at(body, 2)),
        _ => return None,
    })
}
