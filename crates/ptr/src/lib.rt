// Pointers and generations (fundamental/ptr.rs and extra.rs), for the one instance of 32-bit slots and generations.
#![tactic(auto)]

ghost use Rattle.std.specs.Prelude.{◌≡◌};
ghost use Rattle.definitions.specs.Arena.{largest_generation};
ghost use Rattle.definitions.specs.Edit.{next_generation, overflows, done_number};
ghost use Rattle.definitions.specs.Read.{pointer};
ghost use Rattle.ptr.specs.Extra.{invalidation_number};
ghost use Rattle.ptr.specs.Pointers.{pointer_of};

// A slot number; 0 where there is none.
#[derive(Clone, Copy, PartialEq, Eq)]
pub struct Slot(pub u32);

// A generation; a free slot has 0.
#[derive(Clone, Copy, PartialEq, Eq)]
pub struct Gen(pub u32);

// A slot together with a generation (REFERENCE, Pointers and generations).
#[derive(Clone, Copy, PartialEq, Eq)]
pub struct Ptr {
    pub inx: Slot,
    pub generation: Gen,
}

impl Ptr {
    // The pointer of these two words.
    pub fn new(slot: u32, generation: u32) -> Ptr
        ensures { pointer_of result ≡ pointer slot generation }
    {
        Ptr {
            inx: Slot(slot),
            generation: Gen(generation),
        }
    }
}

// The generation that follows another, and whether it overflowed.
#[derive(Clone, Copy)]
pub struct GenerationalInc {
    pub generation: Gen,
    pub overflow: bool,
}

impl Gen {
    // The first generation.
    pub const TWO: Gen = Gen(2);

    // The generation that follows this one: 2 after the largest, 4,294,967,295, and that step is an overflow.
    #[tactic(auto, unfolding(definitions::specs::Edit::next_generation, definitions::specs::Edit::overflows))]
    pub fn generational_inc(self) -> GenerationalInc
        ensures { (result.generation.0 ≡ next_generation largest_generation self.0) × (result.overflow ≡ overflows largest_generation self.0) }
    {
        match self.0.checked_add(1) {
            Some(g) => GenerationalInc {
                generation: Gen(g),
                overflow: false,
            },
            None => GenerationalInc {
                generation: Gen::TWO,
                overflow: true,
            },
        }
    }
}

// The answer of an operation that always succeeds: whether the generation overflowed.
#[derive(Clone, Copy)]
pub enum InvalidationOption {
    Success,
    GenerationOverflow,
}

impl InvalidationOption {
    // The answer for a generation that overflowed or did not.
    pub fn of(overflow: bool) -> InvalidationOption
        ensures { invalidation_number result ≡ done_number overflow }
    {
        if overflow {
            return InvalidationOption::GenerationOverflow;
        }
        InvalidationOption::Success
    }

    // The number of the answer (REFERENCE, Numbers).
    pub fn number(self) -> u32
        ensures { result ≡ invalidation_number self }
    {
        match self {
            InvalidationOption::Success => 0,
            InvalidationOption::GenerationOverflow => 100,
        }
    }
}
