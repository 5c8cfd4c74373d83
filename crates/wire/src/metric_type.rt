// The types of metrics and constraints (RFC 6551, section 6.1: Routing-MC-Type).
ghost use Rattle.std.specs.Prelude.{◌≡◌};
ghost use Rattle.model.specs.Object.{known};
ghost use Rattle.wire.specs.MetricType.{TypeOf, kind_in};

// A type, as far as this release knows it.
#[derive(Clone, Copy, PartialEq, Eq)]
pub enum MetricType {
    // 1: NSA
    NodeState,
    // 2: NE
    NodeEnergy,
    // 3: HP
    HopCount,
    // 4
    Throughput,
    // 5
    Latency,
    // 6: LQL
    LinkQuality,
    // 7
    Etx,
    // 8
    LinkColour,
    // 0 and 9 to 255
    Unknown,
}

impl From<u8> for MetricType {
    ghost from_gives = { TypeOf };

    #[tactic(auto, unfolding(model::specs::Object::kind_of))]
    fn from(mctype: u8) -> Self {
        match mctype {
            1 => MetricType::NodeState,
            2 => MetricType::NodeEnergy,
            3 => MetricType::HopCount,
            4 => MetricType::Throughput,
            5 => MetricType::Latency,
            6 => MetricType::LinkQuality,
            7 => MetricType::Etx,
            8 => MetricType::LinkColour,
            _ => MetricType::Unknown,
        }
    }
}

impl MetricType {
    // Whether this release knows it: 1 to 8.
    #[inline(always)]
    pub fn is_known(self) -> bool
        ensures { result ≡ known (kind_in self) }
    {
        !matches!(self, MetricType::Unknown)
    }
}
