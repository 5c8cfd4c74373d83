// The sentences for bar 19: what a constraint asks, and what the neighbour, the link or the path has.
use crate::output::Output;
use reason::{Shortfall, Way};
use std::io::Write;
use std::{fmt, io};

// Nodes of a type, by the names of RFC 6551.
#[derive(Clone, Copy)]
struct Nodes(u64);

impl fmt::Display for Nodes {
    fn fmt<W: fmt::Write>(&self, f: &mut fmt::Formatter<W>) -> fmt::Result {
        match self.0 {
            0 => write!(f, "mains nodes (type 0)"),
            1 => write!(f, "battery nodes (type 1)"),
            2 => write!(f, "scavenger nodes (type 2)"),
            nodetype => write!(f, "nodes of type {nodetype}"),
        }
    }
}

// ETX as transmissions, with the 128ths of its field. Seven digits behind the point leave nothing of a 128th.
#[derive(Clone, Copy)]
struct Transmissions(u64);

impl fmt::Display for Transmissions {
    fn fmt<W: fmt::Write>(&self, f: &mut fmt::Formatter<W>) -> fmt::Result {
        write!(f, "{}", self.0 / 128)?;
        let mut left = self.0 % 128;
        if left != 0 {
            write!(f, ".")?;
        }
        for _ in 0..7 {
            if left == 0 {
                break;
            }
            write!(f, "{}", left * 10 / 128)?;
            left = left * 10 % 128;
        }
        write!(f, " ({} / 128)", self.0)
    }
}

// What the object of an index asks, and what was found.
pub(crate) fn unmet(out: &mut Output, place: u16, f: &Shortfall) -> io::Result<()> {
    write!(out, ": object {place} asks for ")?;
    match f.way {
        Way::Aggregator => write!(out, "nodes that aggregate; this one does not"),
        Way::Overloaded => write!(out, "nodes that are not overloaded; this one is"),
        Way::OtherType | Way::LittleEnergy | Way::UnknownEnergy => wanted(out, f),
        Way::BarredType | Way::BarredEnergy | Way::BarredUnknown => unwanted(out, f),
        Way::Etx | Way::PathEtx | Way::UnknownEtx => etx(out, f),
        _ => of_way(out, f),
    }
}

// A type, or an energy, that is asked for.
fn wanted(out: &mut Output, f: &Shortfall) -> io::Result<()> {
    let Shortfall {
        which,
        asked,
        found,
        ..
    } = *f;
    match f.way {
        Way::OtherType => write!(out, "{}; this one is of type {found}", Nodes(asked)),
        Way::LittleEnergy => write!(
            out,
            "{} with more than {asked} % energy; this one has {found} %",
            Nodes(which)
        ),
        _ => write!(
            out,
            "{} with more than {asked} % energy; that of this one is unknown",
            Nodes(which)
        ),
    }
}

// A type, or an energy, that is to be left out.
fn unwanted(out: &mut Output, f: &Shortfall) -> io::Result<()> {
    let Shortfall {
        which,
        asked,
        found,
        ..
    } = *f;
    match f.way {
        Way::BarredType => write!(out, "no {}; this one is of that type", Nodes(asked)),
        Way::BarredEnergy => write!(
            out,
            "no {} with less than {asked} % energy; this one has {found} %",
            Nodes(which)
        ),
        _ => write!(
            out,
            "no {} with less than {asked} % energy; that of this one is unknown",
            Nodes(which)
        ),
    }
}

// ETX of the link or of the path.
fn etx(out: &mut Output, f: &Shortfall) -> io::Result<()> {
    let found = Transmissions(f.found);
    write!(out, "ETX of at most {}; ", Transmissions(f.asked))?;
    match f.way {
        Way::Etx => write!(out, "this link has {found}"),
        Way::PathEtx => write!(out, "the path has {found}"),
        _ => write!(out, "that of this link is unknown"),
    }
}

// A limit on the path or the link: what is asked of it.
fn limit(out: &mut Output, f: &Shortfall) -> io::Result<()> {
    let asked = f.asked;
    match f.way {
        Way::Hops | Way::UnknownHops => write!(out, "fewer than {asked} hops; "),
        Way::Throughput | Way::UnknownThroughput => {
            write!(out, "throughput of at least {asked} bytes per second; ")
        }
        Way::Latency | Way::PathLatency | Way::UnknownLatency => {
            write!(out, "latency of at most {asked} microseconds; ")
        }
        _ => write!(out, "link quality from 1 to {asked}; "),
    }
}

// What is asked of the path or of the link.
fn of_way(out: &mut Output, f: &Shortfall) -> io::Result<()> {
    let Shortfall { asked, found, .. } = *f;
    match f.way {
        Way::LacksColour => { write!(out, "links of colour {asked}; this link has colour {found}") }
        Way::HasColour => {
            write!(
                out,
                "no links of colour {asked}; this link has colour {found}"
            )
        }
        Way::Hops | Way::PathLatency => {
            limit(out, f)?;
            write!(out, "the path has {found}")
        }
        Way::UnknownHops => {
            limit(out, f)?;
            write!(out, "those of the path are unknown")
        }
        Way::Throughput | Way::Latency | Way::Quality => {
            limit(out, f)?;
            write!(out, "this link has {found}")
        }
        _ => {
            limit(out, f)?;
            write!(out, "that of this link is unknown")
        }
    }
}
