// Level Two, the insertion of a link, as a host calls it through level_two_c.
#![tactic(auto)]

ghost use Rattle.std.specs.Prelude.{◌≡◌, List, [], ◌∷◌, ℕ};
ghost use Rattle.definitions.specs.Arena.{Arena, capacity_limit, largest_generation};
ghost use Rattle.definitions.specs.Calls.{Insert, reply_to};
ghost use Rattle.lent.specs.Arenas.{held_in, SameBuffers};
ghost use Rattle.ptr.specs.Pointers.{pointer_of, pointer_words};
ghost use Rattle.refusals.specs.Refusal.{result_reply};
ghost use Rattle.answers.specs.Answered.{replied, Answered};

use answers::Answer;
use chain_arena::check;
use chain_insertion::insert_coded;
use lent::ArenaMut;
use ptr::Ptr;
use refusals::Refusal;

// The pointer of a link that was inserted; slot 0 and generation 0 where none was.
#[repr(C)]
#[derive(Clone, Copy, Default)]
pub struct InsertResult {
    pub answer: Answer,
    pub slot: u32,
    pub generation: u32,
}

// What the host is told of an insertion.
impl From<Result<Ptr, Refusal>> for InsertResult {
    ghost from_gives = { λ r s. (a : Arena) (l : List ℕ) → replied s.answer (s.slot ∷ s.generation ∷ []) a l ≡ result_reply pointer_words 2 r a l };

    fn from(inserted: Result<Ptr, Refusal>) -> InsertResult {
        match inserted {
            Ok(p) => InsertResult {
                answer: Answer::DONE,
                slot: p.inx.0,
                generation: p.generation.0,
            },
            Err(refusal) => InsertResult {
                answer: Answer::from(refusal),
                ..InsertResult::default()
            },
        }
    }
}

// The check of the arena, and then the insertion.
#[tactic(auto, using(answers::proofs::Exports::replies_refused, answers::proofs::Exports::replies_passed, well_formed::proofs::WellFormed::well_formed_if_passes), unfolding(definitions::specs::Calls::accepted))]
fn insert(arena: &mut ArenaMut<'_>, kind: u32, p: Ptr, q: Ptr, x: u32) -> Result<Ptr, Refusal>
    ensures lent { SameBuffers arena.old arena.new }
    ensures replied { result_reply pointer_words 2 result (held_in arena.new) []
        ≡ reply_to capacity_limit largest_generation (Insert kind (pointer_of p) (pointer_of q) x) (held_in arena.old) [] }
{
    check(arena.lent())?;
    insert_coded(arena, kind, p, q, x)
}

// Inserts a link of the new payload where the kind says, 6 to 19, with the links at p and q if it names them (REFERENCE, Insert).
pub fn chain_arena_insert(
    arena: &mut ArenaMut<'_>,
    kind: u32,
    p: Ptr,
    q: Ptr,
    new_payload: u32,
) -> InsertResult
    ensures lent { SameBuffers arena.old arena.new }
    ensures answered { Answered (Insert kind (pointer_of p) (pointer_of q) new_payload)
        (held_in arena.old) [] result.answer (result.slot ∷ result.generation ∷ []) (held_in arena.new) [] }
{
    InsertResult::from(insert(arena, kind, p, q, new_payload))
}
