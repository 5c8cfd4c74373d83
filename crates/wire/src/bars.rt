// Bars 15 to 17 at an object of known type, by its role and the uses seen before it. Each role has its own way through them, so that an
// object meets no test of another one.
ghost use Rattle.std.specs.Prelude.{◌≡◌, true, cond, []};
ghost use Rattle.model.specs.Bars.{object_bar_number};
ghost use Rattle.model.specs.Object.{kind_of, known, role_of, constraint, recorded, aggregated};
ghost use Rattle.model.specs.Table.{row};
ghost use Rattle.model.specs.Reading.{cannot_be};
ghost use Rattle.wire.specs.MetricType.{kind_in};
ghost use Rattle.wire.specs.Step.{object_of};
ghost use Rattle.wire.specs.Front.{seen};
ghost use Rattle.wire.specs.Seen.{has_use, bar_by, bar_in};

use crate::bodies;
use crate::metric_type::MetricType;
use crate::objects::{Header, Object};
use crate::seen::Uses;
use model::ObjectBar;

// Whether a metric of a type cannot be recorded.
#[inline(always)]
fn cannot_be_recorded(metric_type: MetricType) -> bool
    ensures { result ≡ cannot_be recorded (row (kind_in metric_type)) }
{
    !metric_type.row().records
}

// Whether it cannot be aggregated by any A.
#[inline(always)]
fn cannot_be_aggregated(metric_type: MetricType) -> bool
    ensures { result ≡ cannot_be aggregated (row (kind_in metric_type)) }
{
    metric_type.row().allows == 0
}

// 16 at an object whose use was seen.
#[inline(always)]
fn check_use(uses: Uses, header: Header) -> Result<(), ObjectBar>
    ensures { bar_in result ≡ cond (has_use uses.0 (object_of header [])) 16 0 }
{
    if uses.has(header) {
        return Err(ObjectBar::Repeat);
    }
    Ok(())
}

// The lower of 16 and 17 at a metric that its type cannot be: the shape of its body is not asked for.
#[inline(always)]
fn misuse(before: Uses, header: Header) -> ObjectBar
    ensures { object_bar_number result ≡ cond (has_use before.0 (object_of header [])) 16 17 }
{
    if before.has(header) {
        return ObjectBar::Repeat;
    }
    ObjectBar::Recorded
}

// The lower of 15 and 16 at a constraint.
#[inline(always)]
pub(crate) fn check_constraint(uses: Uses, object: Object) -> Result<(), ObjectBar>
    requires is_known { known (kind_of object.header.mctype) ≡ true }
    requires of_role { role_of object.header.flags object.header.mode ≡ constraint }
    ensures { bar_in result ≡ bar_by (has_use uses.0 (object_of object.entry.header [])) (seen object.entry) }
{
    if !bodies::is_fixed(object.header.metric_type(), object.body) {
        return Err(ObjectBar::Body);
    }
    check_use(uses, object.header)
}

// The lowest of 15, 16 and 17 at a recorded metric.
#[inline(always)]
pub(crate) fn check_recorded(uses: Uses, object: Object) -> Result<(), ObjectBar>
    requires is_known { known (kind_of object.header.mctype) ≡ true }
    requires of_role { role_of object.header.flags object.header.mode ≡ recorded }
    ensures { bar_in result ≡ bar_by (has_use uses.0 (object_of object.entry.header [])) (seen object.entry) }
{
    let metric_type = object.header.metric_type();
    if cannot_be_recorded(metric_type) {
        return Err(misuse(uses, object.header));
    }
    if !bodies::is_series(metric_type, object.body) {
        return Err(ObjectBar::Body);
    }
    check_use(uses, object.header)
}

// The lowest of 15, 16 and 17 at an aggregated metric. One function for this and the last would be handed two tests, and each its own order.
#[inline(always)]
pub(crate) fn check_aggregated(uses: Uses, object: Object) -> Result<(), ObjectBar>
    requires is_known { known (kind_of object.header.mctype) ≡ true }
    requires of_role { role_of object.header.flags object.header.mode ≡ aggregated }
    ensures { bar_in result ≡ bar_by (has_use uses.0 (object_of object.entry.header [])) (seen object.entry) }
{
    let metric_type = object.header.metric_type();
    if cannot_be_aggregated(metric_type) {
        return Err(misuse(uses, object.header));
    }
    if !bodies::is_fixed(metric_type, object.body) {
        return Err(ObjectBar::Body);
    }
    check_use(uses, object.header)
}
