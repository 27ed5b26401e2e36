// The rest of a walk along a chain, and what is ahead of it, counted before anything is written (chain/chain_iterators.rs).
#![tactic(auto)]

ghost use Rattle.std.specs.Prelude.{◌≡◌, true, [], ◌∷◌, ltb, length, IfOk, IfSome, MatchOption};
ghost use Rattle.definitions.specs.Arena.{is_link};
ghost use Rattle.definitions.specs.Walk.{step, walk_start};
ghost use Rattle.lent.specs.Arenas.{checked_of};
ghost use Rattle.ptr.specs.Pointers.{pointer_of};
ghost use Rattle.refusals.specs.Refusal.{result_reply};
ghost use Rattle.chain_iterators.specs.Walk.{walk_of, stepped_of, OnChain};
ghost use Rattle.chain_ahead.specs.Ahead.{OnChain-prop};

use chain_iterators::{ChainPtrAdvancer, advancer_chain};
use lent::CheckedArena;
use ptr::Ptr;
use refusals::Refusal;

// The rest of a walk along a chain of an arena that passed the check: it is at a link of the chain, or over.
#[derive(Clone, Copy)]
pub struct ChainWalk<'a> {
    pub arena: CheckedArena<'a>,
    pub walk: ChainPtrAdvancer,
    pub ghost on_chain: { OnChain (checked_of arena) walk.ptr.0 } by { OnChain-prop (checked_of arena) walk.ptr.0 },
}

impl<'a> ChainWalk<'a> {
    ghost use Rattle.chain_ahead.specs.Rest.{rest_of, rest_words};

    // The walk that starts at p.
    pub fn new(arena: CheckedArena<'a>, p: Ptr) -> Result<ChainWalk<'a>, Refusal>
        ensures started { result_reply rest_words 4 result (checked_of arena.entry) [] ≡ walk_start (checked_of arena.entry) (pointer_of p) [] }
        ensures arena { IfOk result (λ w. w.arena ≡ arena.entry) }
    {
        let walk = advancer_chain(arena.arena(), p)?;
        Ok(ChainWalk { arena, walk })
    }

    // One step: the link at the position, and the walk goes on from there.
    pub fn advance(&mut self) -> Option<Ptr>
        ensures arena { self.new.arena ≡ self.old.arena }
        ensures step { stepped_of result self.new.walk ≡ step (checked_of self.old.arena) (walk_of self.old.walk) }
        ensures ahead { MatchOption result (rest_of self.old ≡ []) (λ p. rest_of self.old ≡ p.inx.0 ∷ rest_of self.new) }
        ensures link { IfSome result (λ p. is_link (checked_of self.old.arena) p.inx.0 ≡ true) }
    {
        self.walk.advance_on_chain(self.arena.arena())
    }

    // How many links the rest of the walk answers.
    pub fn links_ahead(mut self) -> u32
        ensures { result ≡ length (rest_of self.entry) }
    {
        let mut links: u32 = 0;
        while self.advance().is_some() {
            links += 1;
        }
        links
    }

    // Whether there is room for fewer links than the rest of the walk answers. It answers no more than it has advances left, so where these have room
    // nothing is walked.
    #[tactic(auto, using(crate::proofs::Ahead::ahead_fits))]
    pub fn too_few(self, room: usize) -> bool
        ensures { result ≡ ltb room (length (rest_of self.entry)) }
    {
        room < self.walk.max_advances as usize && room < self.links_ahead() as usize
    }
}
