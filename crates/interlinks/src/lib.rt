// The check of the interlinks (chain/chain_arena.rs, `_check_interlinks`) of a stack: rule 11 at every link, and where it fails first.
#![tactic(auto)]

ghost use Rattle.std.specs.Prelude.{◌≡◌, ◌+◌, ◌≤◌, ◌<◌, true, length, IsTrue};
ghost use Rattle.definitions.specs.Arena.{allocated};
ghost use Rattle.definitions.specs.Check.{names_back};
ghost use Rattle.refusals.specs.Refusal.{side_word};
ghost use Rattle.interlinks.specs.Sides.{FreeStaysFree, leads_to, Finds};

use refusals::Side;

// The link columns of a stack, and the generations, which say which of its slots are links.
#[derive(Clone, Copy)]
pub struct Stack<'a> {
    pub prev: &'a [u32],
    pub next: &'a [u32],
    pub generation: &'a [u32],
    pub ghost same_length: { (length prev.now ≡ length generation.now) × (length next.now ≡ length generation.now) },
}

// Whether the neighbour s of slot x is none, or is a link that names x in the column back.
#[tactic(auto, using(crate::proofs::Neighbours::naming))]
pub fn names_back(back: &[u32], generation: &[u32], x: usize, s: usize) -> bool
    requires { length back.now ≡ length generation.now }
    ensures { result ≡ names_back back.now generation.now (length generation.now) x s }
{
    s == 0 || s <= generation.len() && generation[s - 1] != 0 && (back[s - 1] as usize) == x
}

// Whether slot s, which is not 0, is one of a column and leads to slot x there.
#[tactic(auto, using(crate::proofs::Passes::leading))]
pub fn leads_to(column: &[u32], s: usize, x: usize) -> bool
    requires { 0 < s }
    ensures { result ≡ leads_to column.now (length column.now) s x }
{
    s <= column.len() && (column[s - 1] as usize) == x
}

// Whether slot s, which is not 0, is a link that names the link x as its next. Where no free slot leads to a link, it is not read whether s is one.
#[tactic(auto, using(crate::proofs::Passes::leads_names))]
fn leads_back<const STAYS_FREE: bool>(next: &[u32], generation: &[u32], s: usize, x: usize) -> bool
    requires same_length { length next.now ≡ length generation.now }
    requires some { 0 < s }
    requires link { allocated generation.now (length generation.now) x ≡ true }
    requires stays_free { IsTrue STAYS_FREE → FreeStaysFree next.now generation.now (length generation.now) }
    ensures { result ≡ names_back next.now generation.now (length generation.now) x s }
{
    if STAYS_FREE {
        return leads_to(next, s, x);
    }
    names_back(next, generation, x, s)
}

impl<'a> Stack<'a> {
    // This stack with next for prev and prev for next.
    pub fn turned(self) -> Stack<'a>
        ensures { (result.prev ≡ self.entry.next) × (result.next ≡ self.entry.prev) × (result.generation ≡ self.entry.generation) }
    {
        Stack {
            prev: self.next,
            next: self.prev,
            generation: self.generation,
        }
    }
}

impl Stack<'_> {
    ghost use Rattle.interlinks.specs.Stacks.{slots, StaysFree, next_side, sides, lowest_broken, side_of, PrevPass, NextPass};

    // Whether the next side of slot x is fine: it has no next, it is free, or its next names it back.
    #[tactic(auto, using(crate::proofs::Passes::sides_read))]
    pub fn next_fine(self, x: usize) -> bool
        requires { (0 < x) × (x ≤ slots self) }
        ensures { result ≡ next_side self.entry x }
    {
        let s = self.next[x - 1] as usize;
        s == 0 || self.generation[x - 1] == 0 || names_back(self.prev, self.generation, x, s)
    }

    // Whether rule 11 holds at slot x: both its sides are fine.
    #[tactic(auto, using(crate::proofs::Sides::fine_sides))]
    pub fn neighbours_fine(self, x: usize) -> bool
        requires { (0 < x) × (x ≤ slots self) }
        ensures { result ≡ sides self.entry x }
    {
        self.turned().next_fine(x) && self.next_fine(x)
    }

    // Goes over the prev sides. None if rule 11 holds at all slots; else the lowest slot whose prev side fails, or the one after the last if only next sides do.
    // (No next side is looked at: where every prev side is fine, every next side is too exactly if as many links have a next as have a prev.)
    #[tactic(auto, using(crate::proofs::Passes::going_on))]
    pub fn prev_sides<const STAYS_FREE: bool>(self) -> Option<usize>
        requires stays_free { IsTrue STAYS_FREE → StaysFree self }
        ensures { PrevPass self.entry result }
    {
        let Stack {
            prev,
            next,
            generation,
        } = self;
        let n = generation.len();
        let mut nexts: usize = 0;
        let mut prevs: usize = 0;
        for i in 0..n {
            if generation[i] != 0 {
                if next[i] != 0 {
                    nexts += 1;
                }
                if prev[i] != 0 {
                    if !leads_back::<STAYS_FREE>(next, generation, prev[i] as usize, i + 1) {
                        return Some(i + 1);
                    }
                    prevs += 1;
                }
            }
        }
        if nexts == prevs { None } else { Some(n + 1) }
    }

    // Goes over the next sides of the slots 1 to m - 1: the lowest slot whose next side fails, or none.
    pub fn next_sides(self, m: usize) -> Option<usize>
        requires { (0 < m) × (m ≤ slots self + 1) }
        ensures { NextPass self.entry m result }
    {
        (1..m).find(|x| !self.next_fine(*x))
    }

    // The lowest slot at which rule 11 fails, or none. Where no free slot leads to a link, no neighbour's generation is read in the first pass.
    #[tactic(auto, using(crate::proofs::Passes::ends))]
    pub fn interlinks<const STAYS_FREE: bool>(self) -> Option<usize>
        requires stays_free { IsTrue STAYS_FREE → StaysFree self }
        ensures { Finds (slots self.entry) (lowest_broken self.entry) result }
    {
        let end = self.prev_sides::<STAYS_FREE>()?;
        self.next_sides(end).or(Some(end))
    }

    // On which side rule 11 fails at slot x, where it does: prev if that does not name it back, else next.
    #[tactic(auto, using(crate::proofs::Neighbours::siding))]
    pub fn broken_side(self, x: usize) -> Side
        requires { (0 < x) × (x ≤ slots self) }
        ensures { side_word result ≡ side_of self.entry x }
    {
        if names_back(self.next, self.generation, x, self.prev[x - 1] as usize) {
            return Side::Next;
        }
        Side::Prev
    }
}
