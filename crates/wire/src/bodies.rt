// Whether a body is as the table has it.
ghost use Rattle.std.specs.Prelude.{◌≡◌};
ghost use Rattle.model.specs.Table.{row};
ghost use Rattle.model.specs.Reading.{tlvs_fit, fixed_shape, recorded_shape};
ghost use Rattle.wire.specs.MetricType.{kind_in};

use crate::metric_type::MetricType;

// Whether TLVs fill the bytes: a type, the length of a value, the value. It calls itself on the rest, which is shorter by two bytes or more.
fn tlvs_fit(tlvs: &[u8]) -> bool
    ensures { result ≡ tlvs_fit tlvs.now }
{
    let [_, size, rest @ ..] = tlvs else {
        return tlvs.is_empty();
    };
    let size = *size as usize;
    if rest.len() < size {
        return false;
    }
    tlvs_fit(&rest[size..])
}

// The body of a constraint or an aggregated metric: the base bytes, and TLVs behind them where the type has them. Most have none.
#[inline(always)]
pub(crate) fn is_fixed(metric_type: MetricType, body: &[u8]) -> bool
    ensures { result ≡ fixed_shape (row (kind_in metric_type)) body.now }
{
    let row = metric_type.row();
    let base = row.base as usize;
    if body.len() == base {
        return true;
    }
    if body.len() < base {
        return false;
    }
    row.tlvs && tlvs_fit(&body[base..])
}

// The body of a recorded metric: the lead bytes, and one sub-object or more. Each size of the table has its own divisor; the
// size of a type that is never recorded is 0.
#[inline(always)]
pub(crate) fn is_series(metric_type: MetricType, body: &[u8]) -> bool
    ensures { result ≡ recorded_shape (row (kind_in metric_type)) body.now }
{
    let row = metric_type.row();
    let lead = row.lead as usize;
    let size = row.size as usize;
    if body.len() < lead + size {
        return false;
    }
    let rest = body.len() - lead;
    match size {
        4 => rest % 4 == 0,
        2 => rest % 2 == 0,
        1 => true,
        _ => rest == 0,
    }
}
