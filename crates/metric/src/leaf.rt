// Leaf answers 31 to 36: why nothing is sent on, and the node joins as a leaf.
ghost use Rattle.std.specs.Prelude.{◌≡◌};
ghost use Rattle.metric.specs.Leaf.{number_of};

// The first thing by which a parent's objects cannot be kept true.
#[derive(Clone, Copy, PartialEq, Eq, Debug)]
pub enum Leaf {
    // an aggregated metric of unknown type
    Unknown,
    // an aggregation that the table does not allow for the type
    Aggregation,
    // no local value, or an NE received with E=0
    Value,
    // a hop count of 255
    Count,
    // an object too long for a container, or a ninth container
    Length,
    // a throughput or latency beyond its field
    Sum,
}

impl Leaf {
    // Document 01's number, which an answer carries.
    pub fn number(self) -> u8
        ensures { result ≡ number_of self }
    {
        match self {
            Leaf::Unknown => 31,
            Leaf::Aggregation => 32,
            Leaf::Value => 33,
            Leaf::Count => 34,
            Leaf::Length => 35,
            Leaf::Sum => 36,
        }
    }
}
