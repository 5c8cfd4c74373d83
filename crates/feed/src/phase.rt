// Where the last byte fed stands, and what becomes of the option in hand: enums, with the numbers that the state has for them.
ghost use Rattle.std.specs.Prelude.{◌≡◌};
ghost use Rattle.feed.specs.Numbers.{phase_of, keep_of, keep_number_of};
ghost use Rattle.feed.specs.Step.{keep_number};

// Between options, behind a type byte, in an option, or nowhere, as the buffer is too short.
#[derive(Clone, Copy, PartialEq, Eq)]
pub(crate) enum Phase {
    Between = 0,
    Typed = 1,
    Within = 2,
    Short = 255,
}

// Another number stands for between options.
impl From<u8> for Phase {
    ghost from_gives = { λ number phase. phase ≡ phase_of number };

    fn from(number: u8) -> Phase {
        match number {
            1 => Phase::Typed,
            2 => Phase::Within,
            255 => Phase::Short,
            _ => Phase::Between,
        }
    }
}

// An option is dropped, kept as an empty container, or kept whole.
#[derive(Clone, Copy, PartialEq, Eq)]
pub(crate) enum Keep {
    Dropped = 0,
    Empty = 1,
    Whole = 2,
}

// Another number stands for whole.
impl From<u8> for Keep {
    ghost from_gives = { λ number keep. keep ≡ keep_of number };

    fn from(number: u8) -> Keep {
        match number {
            0 => Keep::Dropped,
            1 => Keep::Empty,
            _ => Keep::Whole,
        }
    }
}

impl Keep {
    // Of metric containers (RFC 6550, 6.7.4) the first eight are kept whole, the ninth as an empty one; no other option is kept.
    pub(crate) fn of(option_type: u8, count: u8) -> Keep
        ensures { keep_number_of result ≡ keep_number option_type count }
    {
        // each answer by its own `return`: the numbers of an `if` with `else`s are worked out for every option, dropped ones too
        if option_type != 2 {
            return Keep::Dropped;
        }
        if count < 8 {
            return Keep::Whole;
        }
        if count == 8 {
            return Keep::Empty;
        }
        Keep::Dropped
    }
}
