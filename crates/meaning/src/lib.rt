// What each number that a caller can receive means, in words.
#![tactic(auto)]

ghost use Rattle.std.specs.Prelude.{◌≡◌, ◌≤◌, length};
ghost use Rattle.meaning.specs.Meaning.{meaning, told, told_in};

// Bytes that hold the words for any number.
pub const MEANING_ROOM: usize = 100;

// The words for a number; none for one without a meaning.
pub fn words(number: u8) -> &'static str
    ensures value { result.now ≡ meaning number }
    ensures bound { length result.now ≤ MEANING_ROOM }
{
    match number {
        0 => "nothing to report: not refused, no leaf answer, or no candidate at this position",
        1 => "MinHopRankIncrease is 0, or the node's own type is above 3",
        2 => "more than 16 candidates",
        3 => "the current parent's position is not below the number of candidates",
        4 => "the output is shorter than 2056 bytes",
        5 => "the edition is not 1 or 2",
        6 => "the position is not below the number of candidates",
        10 => "unbarred",
        11 =>
            "Sp, Rf, Sr, LQL, type or colour out of range; in edition 2 also interface order or root preference",
        12 => "the run of options is not inside the lent bytes",
        13 => "the container is under 2 bytes, does not start with 2, or its data length is wrong",
        14 => "an object's header or body runs past the end of its container",
        15 => "an object of known type has a body that its type does not allow, or a TLV overruns",
        16 => "an object of known type stood before, as constraint or as metric both times",
        17 => "an NSA or HP metric is recorded, or an LQL or colour metric is not",
        18 => "a mandatory constraint of unknown type",
        19 => "a mandatory constraint is not met",
        20 => "the advertised rank is 65535, or the resulting rank is 65535 or more",
        21 => "the resulting rank is above the lowest rank advertised plus DAGMaxRankIncrease",
        22 => "an option is cut short at the end of the run",
        23 => "a ninth container",
        31 => "an aggregated metric of unknown type",
        32 => "a metric is aggregated in a way that its type does not allow",
        33 =>
            "the local value of an aggregated metric is unknown, or energy came without an estimate",
        34 => "the hop count is 255 already",
        35 =>
            "an object to send on would have more than 255 bytes, or a ninth container would be needed",
        36 => "a throughput or latency added up along the path would be above 4294967295",
        _ => "",
    }
}

// Writes what a number means at the start of an output, for C, which asks by number and lends the room; answers the length of the words: 0 for a number without a meaning, and
// for an output under MEANING_ROOM bytes.
#[tactic(auto, unfolding(crate::specs::Meaning::told, crate::specs::Meaning::told_in))]
pub fn put_meaning(number: u8, out: &mut [u8]) -> usize
    ensures value { result ≡ told number (length out.old) }
    ensures written { out.new ≡ told_in number out.old }
    ensures bound { result ≤ length out.new }
{
    if out.len() < MEANING_ROOM {
        return 0;
    }
    let words = words(number).as_bytes();
    // a loop, since a copy of slices of any length calls `memmove`, which the library needs nowhere else
    for (i, byte) in words.iter().enumerate() {
        out[i] = *byte;
    }
    words.len()
}
