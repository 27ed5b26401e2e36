// The calls that are replayed, by the codes of their cases.
ghost use Rattle.std.specs.Prelude.{◌≡◌, ◌<◌, ◌≤◌, ◌↔◌, IsOk, IfOk};
ghost use Rattle.replay_cases.specs.Calls.{code_of};

// A call that is replayed.
#[derive(Clone, Copy)]
pub enum Call {
    Check,
    GetLink,
    GetLinkNoGen,
    AreNeighbors,
    WalkStart,
    WalkStep,
    Connect,
    BreakPrev,
    BreakNext,
    ExchangeNext,
    Remove,
    Drain,
    SetGeneration,
    IncGeneration,
    CanonicalizeFreelist,
    Run,
    CompressWith,
    CompressCanonical,
    Insert,
    LineOfDot,
    LineDots,
    DueCount,
    DueEvents,
}

// A code that no call has.
#[derive(Clone, Copy)]
pub struct UnknownCode;

impl TryFrom<u32> for Call {
    type Error = UnknownCode;

    // The codes are 1 to 23, and the call of a code is the one that has it.
    ghost try_from_gives = { λ code r. (IsOk r ↔ ((0 < code) × (code ≤ 23))) × IfOk r (λ call. code_of call ≡ code) };

    fn try_from(code: u32) -> Result<Call, UnknownCode> {
        match code {
            1 => Ok(Call::Check),
            2 => Ok(Call::GetLink),
            3 => Ok(Call::GetLinkNoGen),
            4 => Ok(Call::AreNeighbors),
            5 => Ok(Call::WalkStart),
            6 => Ok(Call::WalkStep),
            7 => Ok(Call::Connect),
            8 => Ok(Call::BreakPrev),
            9 => Ok(Call::BreakNext),
            10 => Ok(Call::ExchangeNext),
            11 => Ok(Call::Remove),
            12 => Ok(Call::Drain),
            13 => Ok(Call::SetGeneration),
            14 => Ok(Call::IncGeneration),
            15 => Ok(Call::CanonicalizeFreelist),
            16 => Ok(Call::Run),
            17 => Ok(Call::CompressWith),
            18 => Ok(Call::CompressCanonical),
            19 => Ok(Call::Insert),
            20 => Ok(Call::LineOfDot),
            21 => Ok(Call::LineDots),
            22 => Ok(Call::DueCount),
            23 => Ok(Call::DueEvents),
            _ => Err(UnknownCode),
        }
    }
}
