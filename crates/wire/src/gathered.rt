// What the reading pass gathers of a run's objects, one behind another.
ghost use Rattle.std.specs.Prelude.{◌≡◌, ◌<◌, true, List};
ghost use Rattle.model.specs.Object.{kind, role, aggregated};
ghost use Rattle.model.specs.Object as model;
ghost use Rattle.model.specs.Table.{row};
ghost use Rattle.model.specs.Reading.{shaped};
ghost use Rattle.wire.specs.Front.{seen};
ghost use Rattle.wire.specs.Gathered.{Gathers, Adds, With, untold, told_by};

use crate::bars;
use crate::mandatory::FlagsSeen;
use crate::metric_type::MetricType;
use crate::objects::{Header, Object};
use crate::seen::Uses;
use model::{ObjectBar, Summary};

// What is gathered of objects none of which has a bar: their number, the uses seen, what they tell the tests of constraints, and the flags seen.
#[derive(Clone, Copy)]
pub struct Gathered {
    pub count: usize,
    pub uses: Uses,
    pub summary: Summary,
    pub flags: FlagsSeen,
}

// What an aggregated metric without a bar tells, in place of what was told before it: an HP metric its count; a latency or an ETX that is
// added up along the path, A=0, its value.
#[inline(always)]
fn told_with(summary: Summary, object: Object) -> Summary
    requires of_role { role (seen object) ≡ aggregated }
    requires shaped { shaped (role (seen object)) (row (kind (seen object))) object.body.now ≡ true }
    ensures { result ≡ told_by summary (seen object.entry) }
{
    let is_added = object.header.aggregation() == 0;
    match (object.header.metric_type(), object.body) {
        (MetricType::HopCount, [_, count, ..]) => Summary {
            hops: Some(*count),
            latency: summary.latency,
            etx: summary.etx,
        },
        (MetricType::Latency, [a, b, c, d]) if is_added => Summary {
            hops: summary.hops,
            latency: u32::from_be_bytes([*a, *b, *c, *d]),
            etx: summary.etx,
        },
        (MetricType::Etx, [a, b]) if is_added => Summary {
            hops: summary.hops,
            latency: summary.latency,
            etx: u16::from_be_bytes([*a, *b]),
        },
        _ => summary,
    }
}

impl Gathered {
    // Of no object.
    #[inline(always)]
    pub(crate) fn new() -> Self
        ensures { result ≡ untold }
    {
        Gathered {
            count: 0,
            uses: Uses(0),
            summary: Summary {
                hops: None,
                latency: 0,
                etx: 0,
            },
            flags: FlagsSeen(0),
        }
    }

    // With one object more, behind which that much is told.
    #[inline(always)]
    fn with(self, header: Header, summary: Summary) -> Gathered
        requires { self.count < 18446744073709551615 }
        ensures { With self header summary result }
    {
        Gathered {
            count: self.count + 1,
            uses: self.uses.with(header),
            summary,
            flags: self.flags.with(header),
        }
    }

    // One object more, or the lowest of bars 15 to 17 that it has. Of an object of unknown type only the flags are kept.
    #[inline(always)]
    pub(crate) fn add(self, object: Object) -> Result<Gathered, ObjectBar>
        requires { self.count < 18446744073709551615 }
        ensures { (es : List model.Object) → Gathers self es → Adds es (seen object.entry) result }
    {
        let header = object.header;
        if !header.metric_type().is_known() {
            return Ok(self.with(header, self.summary)); // an unknown type may repeat
        }
        if header.is_constraint() {
            bars::check_constraint(self.uses, object)?;
            return Ok(self.with(header, self.summary));
        }
        if header.is_recorded() {
            bars::check_recorded(self.uses, object)?;
            return Ok(self.with(header, self.summary));
        }
        bars::check_aggregated(self.uses, object)?;
        Ok(self.with(header, told_with(self.summary, object)))
    }
}
