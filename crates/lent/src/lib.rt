// The arena that a host lends: four columns and a header, to be read or to be written (REFERENCE, Arena).
#![tactic(auto)]

ghost use Rattle.std.specs.Prelude.{◌≡◌};
ghost use Rattle.definitions.specs.Arena.{capacity_limit, capacity, stack_length, link_count, root, current};
ghost use Rattle.definitions.specs.Lent.{lent};
ghost use Rattle.definitions.specs.Check.{verdict};
ghost use Rattle.definitions.proofs.Shaped.{Shaped};

use header::{CURRENT_GENERATION, LINK_COUNT, ROOT, STACK_LENGTH};
use ptr::{Gen, Slot};

// An arena that is lent to be read, as it comes from the host: any lengths and any words.
#[derive(Clone, Copy)]
pub struct LentArena<'a> {
    pub prev: &'a [u32],
    pub next: &'a [u32],
    pub generation: &'a [u32],
    pub payload: &'a [u32],
    pub header: &'a [u32],
}

// An arena that is lent to be read and has the shape of one, so that rules 1 to 3 hold.
#[derive(Clone, Copy)]
pub struct ArenaRef<'a> {
    pub prev: &'a [u32],
    pub next: &'a [u32],
    pub generation: &'a [u32],
    pub payload: &'a [u32],
    pub header: &'a [u32],
    pub ghost shaped: { Shaped capacity_limit (lent prev next generation payload header) },
}

// An arena that is lent to be read and passed the check.
#[derive(Clone, Copy)]
pub struct CheckedArena<'a> {
    pub prev: &'a [u32],
    pub next: &'a [u32],
    pub generation: &'a [u32],
    pub payload: &'a [u32],
    pub header: &'a [u32],
    pub ghost passed: { verdict capacity_limit (lent prev next generation payload header) ≡ 0 },
}

// An arena that is lent to be written. Between two writes its links need not name each other, so the type says nothing of them.
#[derive(Drop)]
pub struct ArenaMut<'a> {
    pub prev: &'a mut [u32],
    pub next: &'a mut [u32],
    pub generation: &'a mut [u32],
    pub payload: &'a mut [u32],
    pub header: &'a mut [u32],
}

// The two link columns of a lent arena, to be written, and the rest of it, to be read.
#[derive(Drop)]
pub struct LinksMut<'a> {
    pub prev: &'a mut [u32],
    pub next: &'a mut [u32],
    pub generation: &'a [u32],
    pub payload: &'a [u32],
    pub header: &'a [u32],
}

// The header of a lent arena, to be written, and its columns, to be read.
#[derive(Drop)]
pub struct HeaderMut<'a> {
    pub prev: &'a [u32],
    pub next: &'a [u32],
    pub generation: &'a [u32],
    pub payload: &'a [u32],
    pub header: &'a mut [u32],
}

impl<'a> LentArena<'a> {
    ghost use Rattle.lent.specs.Arenas.{lent_of, arena_of};

    // This arena, by one who knows that it has the shape of one.
    pub fn shaped(self) -> ArenaRef<'a>
        requires { Shaped capacity_limit (lent_of self) }
        ensures { arena_of result ≡ lent_of self.entry }
    {
        ArenaRef {
            prev: self.prev,
            next: self.next,
            generation: self.generation,
            payload: self.payload,
            header: self.header,
        }
    }
}

impl<'a> LentArena<'a> {
    ghost use Rattle.lent.specs.Arenas.{lent_of, checked_of};

    // This arena, by one who knows that it passes the check.
    pub fn checked(self) -> CheckedArena<'a>
        requires { verdict capacity_limit (lent_of self) ≡ 0 }
        ensures { checked_of result ≡ lent_of self.entry }
    {
        CheckedArena {
            prev: self.prev,
            next: self.next,
            generation: self.generation,
            payload: self.payload,
            header: self.header,
        }
    }
}

impl<'a> CheckedArena<'a> {
    ghost use Rattle.lent.specs.Arenas.{arena_of, checked_of};

    // This arena, which has the shape of one.
    #[tactic(auto, using(definitions::proofs::Shaped::shaped))]
    pub fn arena(self) -> ArenaRef<'a>
        ensures { arena_of result ≡ checked_of self.entry }
    {
        ArenaRef {
            prev: self.prev,
            next: self.next,
            generation: self.generation,
            payload: self.payload,
            header: self.header,
        }
    }
}

impl ArenaRef<'_> {
    ghost use Rattle.lent.specs.Arenas.{arena_of};

    // How many slots each column has.
    pub fn capacity(self) -> usize
        ensures { result ≡ capacity (arena_of self.entry) }
    {
        self.prev.len()
    }

    // How many slots are in the stack, allocated or free.
    pub fn stack_length(self) -> usize
        ensures { result ≡ stack_length (arena_of self.entry) }
    {
        self.header[STACK_LENGTH] as usize
    }

    // How many links there are.
    pub fn link_count(self) -> u32
        ensures { result ≡ link_count (arena_of self.entry) }
    {
        self.header[LINK_COUNT]
    }

    // The first slot of the freelist, 0 if no slot is free.
    pub fn root(self) -> Slot
        ensures { result.0 ≡ root (arena_of self.entry) }
    {
        Slot(self.header[ROOT])
    }

    // The current generation.
    pub fn current_generation(self) -> Gen
        ensures { result.0 ≡ current (arena_of self.entry) }
    {
        Gen(self.header[CURRENT_GENERATION])
    }
}

impl ArenaMut<'_> {
    ghost use Rattle.lent.specs.Arenas.{lent_of, held_in};

    // The arena as it now is, to be read.
    pub fn lent(&self) -> LentArena<'_>
        ensures { lent_of result ≡ held_in self.now }
    {
        LentArena {
            prev: &*self.prev,
            next: &*self.next,
            generation: &*self.generation,
            payload: &*self.payload,
            header: &*self.header,
        }
    }
}

impl LinksMut<'_> {
    ghost use Rattle.lent.specs.Arenas.{lent_of, links_of};

    // The arena as it now is, to be read.
    pub fn lent(&self) -> LentArena<'_>
        ensures { lent_of result ≡ links_of self.now }
    {
        LentArena {
            prev: &*self.prev,
            next: &*self.next,
            generation: self.generation,
            payload: self.payload,
            header: self.header,
        }
    }
}

impl HeaderMut<'_> {
    ghost use Rattle.lent.specs.Arenas.{lent_of, header_of};

    // The arena as it now is, to be read.
    pub fn lent(&self) -> LentArena<'_>
        ensures { lent_of result ≡ header_of self.now }
    {
        LentArena {
            prev: self.prev,
            next: self.next,
            generation: self.generation,
            payload: self.payload,
            header: &*self.header,
        }
    }
}
