// The walk along a chain (chain/chain_iterators.rs) in a lent arena.
#![tactic(auto)]

ghost use Rattle.std.specs.Prelude.{◌≡◌, ◌≢◌, true, cond, [], ◌-◌, ◌≤◌, ◌<◌, length, IfSome};
ghost use Rattle.definitions.specs.Columns.{at};
ghost use Rattle.definitions.specs.Arena.{allocated, is_link};
ghost use Rattle.definitions.specs.Walk.{walk, walk_start, onward, step};
ghost use Rattle.lent.specs.Arenas.{arena_of};
ghost use Rattle.ptr.specs.Pointers.{pointer_of};
ghost use Rattle.refusals.specs.Refusal.{result_reply};
ghost use Rattle.chain_iterators.specs.Walk.{walk_of, stepped_of, OnChain, walk_words};

use chain_traits::{is_link, stale};
use columns::{slot_at, word_at};
use lent::ArenaRef;
use ptr::{Gen, Ptr, Slot};
use refusals::Refusal;

// A walk along one chain. Any words may stand in it: at a position that is no link of the stack the walk is over (REFERENCE, Walk).
#[derive(Clone, Copy)]
pub struct ChainPtrAdvancer {
    // where the walk began
    pub init: Slot,
    // the slot that the next step answers, 0 where the walk is over
    pub ptr: Slot,
    // 0 along next, any other along prev
    pub switch: u32,
    // how many more steps may advance
    pub max_advances: u32,
}

// The prev of the link s; 0 where s is no link.
#[tactic(auto, using(definitions::proofs::Steps::link_slot))]
pub fn prev_of(prev: &[u32], generation: &[u32], n: usize, s: Slot) -> Slot
    requires { (n ≤ length prev.now) × (n ≤ length generation.now) }
    ensures { result.0 ≡ cond (allocated generation.now n s.0) (at prev.now s.0) 0 }
{
    if is_link(generation, n, s) {
        slot_at(prev, s)
    } else {
        Slot(0)
    }
}

// Starts a walk at p, with as many advances as there are links.
#[tactic(auto, using(chain_traits::proofs::Fresh::stale_of), unfolding(definitions::specs::Walk::walk_start))]
pub fn advancer_chain(arena: ArenaRef<'_>, p: Ptr) -> Result<ChainPtrAdvancer, Refusal>
    ensures { result_reply walk_words 4 result (arena_of arena.entry) []
        ≡ walk_start (arena_of arena.entry) (pointer_of p) [] }
{
    if stale(arena.generation, arena.stack_length(), p) {
        return Err(Refusal::StalePointer);
    }
    Ok(ChainPtrAdvancer {
        init: p.inx,
        ptr: p.inx,
        switch: 0,
        max_advances: arena.link_count(),
    })
}

impl ChainPtrAdvancer {
    // The state one advance later, at another position and in this direction.
    pub fn moved(self, ptr: Slot, switch: u32) -> ChainPtrAdvancer
        requires { 0 < self.max_advances }
        ensures { walk_of result ≡ walk self.init.0 ptr.0 switch (self.max_advances - 1) }
    {
        ChainPtrAdvancer {
            ptr,
            switch,
            max_advances: self.max_advances - 1,
            ..self
        }
    }

    // The state after the link at the position was answered: on along the direction, at the end of an open chain to the start's prev, and at the
    // start of a closed one to no position.
    #[tactic(auto, using(definitions::proofs::Steps::link_slot), unfolding(definitions::specs::Walk::onward))]
    pub fn onward(self, arena: ArenaRef<'_>) -> ChainPtrAdvancer
        requires { (is_link (arena_of arena) self.ptr.0 ≡ true) × (0 < self.max_advances) }
        ensures { walk_of result ≡ onward (arena_of arena.entry) (walk_of self) }
    {
        if self.switch != 0 {
            return self.moved(slot_at(arena.prev, self.ptr), self.switch);
        }
        let ahead = slot_at(arena.next, self.ptr);
        if ahead.0 == 0 {
            let turned = prev_of(
                arena.prev,
                arena.generation,
                arena.stack_length(),
                self.init,
            );
            self.moved(turned, 1)
        } else if ahead == self.init {
            self.moved(Slot(0), self.switch)
        } else {
            self.moved(ahead, self.switch)
        }
    }

    // One step, where it is known whether the position is a link: that link, and the state goes on from there.
    #[tactic(auto, using(definitions::proofs::Steps::link_slot), unfolding(definitions::specs::Walk::step))]
    fn advance_if(&mut self, arena: ArenaRef<'_>, at_link: bool) -> Option<Ptr>
        requires { at_link ≡ is_link (arena_of arena) self.old.ptr.0 }
        ensures step { stepped_of result self.new ≡ step (arena_of arena.entry) (walk_of self.old) }
        ensures some { IfSome result (λ p. p.inx.0 ≢ 0) }
    {
        if self.max_advances == 0 {
            return None;
        }
        if !at_link {
            *self = self.moved(Slot(0), self.switch);
            return None;
        }
        let here = self.ptr;
        *self = self.onward(arena);
        Some(Ptr {
            inx: here,
            generation: Gen(word_at(arena.generation, here)),
        })
    }

    // One step: the link at the position, and the state goes on from there.
    pub fn advance(&mut self, arena: ArenaRef<'_>) -> Option<Ptr>
        ensures step { stepped_of result self.new ≡ step (arena_of arena.entry) (walk_of self.old) }
        ensures some { IfSome result (λ p. p.inx.0 ≢ 0) }
    {
        let at_link = is_link(arena.generation, arena.stack_length(), self.ptr);
        self.advance_if(arena, at_link)
    }

    // The same step of a walk that is on a chain, at one of its links or over: it need not ask whether the position is a link, and where
    // nobody looks at the generation that it answers, the compiler leaves that read out.
    #[tactic(auto, using(crate::proofs::Chain::on_chain_link))]
    pub fn advance_on_chain(&mut self, arena: ArenaRef<'_>) -> Option<Ptr>
        requires { OnChain (arena_of arena) self.old.ptr.0 }
        ensures step { stepped_of result self.new ≡ step (arena_of arena.entry) (walk_of self.old) }
        ensures some { IfSome result (λ p. p.inx.0 ≢ 0) }
    {
        let at_link = self.ptr.0 != 0;
        self.advance_if(arena, at_link)
    }
}
