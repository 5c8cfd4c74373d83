// Bar 11: the first number that is out of range.
ghost use Rattle.std.specs.Prelude.{◌≡◌, ◌||◌, ltb, is_err, Err, OnErr};
ghost use Rattle.reason.specs.Finding.{range_finding};
ghost use Rattle.reason.specs.Told.{finding_from};

use crate::findings::{Shortfall, Way};
use model::{Neighbour, Own};

// A number is in its range.
fn within(way: Way, least: u64, most: u64, found: u64) -> Result<(), Shortfall>
    ensures short { is_err result ≡ (ltb found least || ltb most found) }
    ensures told { OnErr result (result ≡ Err (record { way = way; which = least; asked = most; found = found })) }
{
    if (found < least) | (most < found) {
        return Err(Shortfall {
            way,
            which: least,
            asked: most,
            found,
        });
    }
    Ok(())
}

// Sp, Rf, Sr, LQL, type, colour, and in edition 2 order and preference, are in range.
#[tactic(auto, unfolding(crate::specs::Finding::range_finding, crate::specs::Finding::word_range, crate::specs::Finding::site_range))]
pub(crate) fn check(own: Own, neighbour: Neighbour) -> Result<(), Shortfall>
    ensures { finding_from result ≡ range_finding own neighbour }
{
    within(Way::Sp, 1, 9, neighbour.sp as u64)?;
    within(Way::Rf, 1, 4, neighbour.rf as u64)?;
    within(Way::Sr, 0, 5, neighbour.sr as u64)?;
    within(Way::Lql, 0, 7, neighbour.lql as u64)?;
    within(Way::NodeType, 0, 3, neighbour.nodetype as u64)?;
    within(Way::Colour, 0, 1023, neighbour.colour as u64)?;
    if own.edition == 2 {
        within(Way::Order, 0, 7, neighbour.order as u64)?;
        within(Way::Preference, 0, 7, neighbour.preference as u64)?;
    }
    Ok(())
}
