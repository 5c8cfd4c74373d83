// What is told of a candidate.
ghost use Rattle.choose.specs.Line.{NoMoreLeft};

use crate::fault::Fault;
use crate::lent::Lent;
use crate::line::Rest;
use crate::setting::{Given, Setting};
use feed::Fed;
use model::{Candidate, Neighbour, Rank};

// The flags of `Neighbour`, whose layout C has.
const OVERLOADED: u8 = 0x01;

const AGGREGATOR: u8 = 0x02;

const ENERGY: u8 = 0x04;

const ETX: u8 = 0x08;

const LATENCY: u8 = 0x10;

const THROUGHPUT: u8 = 0x20;

const GROUNDED: u8 = 0x40;

// The settings that a candidate needs beside its run.
static NEEDED: [Setting; 6] = [
    Setting::Rank,
    Setting::Sp,
    Setting::Rf,
    Setting::Sr,
    Setting::Type,
    Setting::Lql,
];

// How the run of a candidate is told: by its bytes, in parts, or by its place in the lent run.
#[derive(Clone, Copy, PartialEq, Eq)]
enum ToldBy {
    Bytes,
    Parts,
    Place,
}

#[derive(Clone, Copy)]
pub struct CandidateSettings {
    pub candidate: Candidate,
    run: Option<ToldBy>,
    fed: Fed,
    given: Given,
}

// Nothing is told of a candidate behind which no bytes are lent.
impl Default for CandidateSettings {
    fn default() -> CandidateSettings {
        CandidateSettings::behind(0)
    }
}

impl CandidateSettings {
    // Nothing is told of a candidate whose own bytes begin at an index of the lent run.
    pub(crate) fn behind(start: usize) -> CandidateSettings {
        CandidateSettings {
            candidate: Candidate {
                neighbour: Neighbour {
                    rank: Rank(0),
                    sp: 0,
                    rf: 0,
                    sr: 0,
                    nodetype: 0,
                    flags: 0,
                    energy: 0,
                    lql: 0,
                    etx: 0,
                    latency: 0,
                    throughput: 0,
                    colour: 0,
                    order: 0,
                    preference: 0,
                },
                start,
                size: 0,
            },
            run: None,
            fed: Fed {
                size: 0,
                phase: 0,
                keep: 0,
                missing: 0,
                count: 0,
            },
            given: Given::default(),
        }
    }

    // Whether its run came in parts.
    pub(crate) fn is_parted(&self) -> bool {
        self.run == Some(ToldBy::Parts)
    }

    // The first setting that is missing.
    pub(crate) fn missing(&self) -> Option<Setting> {
        let run: &[Setting] = match self.run {
            None | Some(ToldBy::Bytes) => &[Setting::Container],
            Some(ToldBy::Place) => &[Setting::Start, Setting::Size],
            Some(ToldBy::Parts) => &[],
        };
        let missing = self.given.first_missing(&NEEDED);
        missing.or(self.given.first_missing(run))
    }

    // Takes a setting, with what stands behind it.
    pub(crate) fn take(
        &mut self,
        setting: Setting,
        line: &mut Rest<'_>,
        lent: &mut Lent,
    ) -> Result<(), Fault>
        ensures { NoMoreLeft line.old line.new }
    {
        if !self.given.insert(setting) {
            return Err(Fault::Twice(setting));
        }
        match setting {
            Setting::Container => {
                self.tell_run(ToldBy::Bytes)?;
                lent.extend(setting, line.hex())?;
                self.candidate.size = lent.bytes().len().saturating_sub(self.candidate.start);
                line.end();
            }
            Setting::Part => {
                self.tell_run(ToldBy::Parts)?;
                self.fed = lent.feed(self.candidate.start, self.fed, line.hex())?;
                self.candidate.size = (self.fed.size as usize).min(feed::KEPT_ROOM);
                line.end();
            }
            Setting::Start => {
                self.tell_run(ToldBy::Place)?;
                self.candidate.start = line.number(setting)?;
            }
            Setting::Size => {
                self.tell_run(ToldBy::Place)?;
                self.candidate.size = line.number(setting)?;
            }
            _ => take(&mut self.candidate.neighbour, setting, line)?,
        }
        Ok(())
    }

    // Notes in which way its run is told: in one alone.
    fn tell_run(&mut self, by: ToldBy) -> Result<(), Fault> {
        match self.run.replace(by) {
            Some(before) if before != by => {
                if before == ToldBy::Parts || by == ToldBy::Parts {
                    return Err(Fault::PartTogether);
                }
                Err(Fault::ContainerTogether)
            }
            _ => Ok(()),
        }
    }
}

// Takes a setting of a neighbour, or of the link to it.
fn take(one: &mut Neighbour, setting: Setting, line: &mut Rest<'_>) -> Result<(), Fault>
    ensures { NoMoreLeft line.old line.new }
{
    match setting {
        Setting::Rank => one.rank = Rank(line.number(setting)?),
        Setting::Sp => one.sp = line.number(setting)?,
        Setting::Rf => one.rf = line.number(setting)?,
        Setting::Sr => one.sr = line.number(setting)?,
        Setting::Type => one.nodetype = line.number(setting)?,
        Setting::Lql => one.lql = line.number(setting)?,
        Setting::Colour => one.colour = line.number(setting)?,
        Setting::Order => one.order = line.number(setting)?,
        Setting::Preference => one.preference = line.number(setting)?,
        Setting::Energy => {
            one.energy = line.number(setting)?;
            one.flags |= ENERGY;
        }
        Setting::Etx => {
            one.etx = line.number(setting)?;
            one.flags |= ETX;
        }
        Setting::Latency => {
            one.latency = line.number(setting)?;
            one.flags |= LATENCY;
        }
        Setting::Throughput => {
            one.throughput = line.number(setting)?;
            one.flags |= THROUGHPUT;
        }
        Setting::Aggregator => one.flags |= AGGREGATOR,
        Setting::Overloaded => one.flags |= OVERLOADED,
        Setting::Grounded => one.flags |= GROUNDED,
        _ => return Err(Fault::OfCall(setting)),
    }
    Ok(())
}
