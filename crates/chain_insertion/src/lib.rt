// Insertion of a link (`insert_within_capacity` of chain/chain_traits.rs) into an arena that passed the check: one for all kinds.
#![tactic(auto)]

ghost use Rattle.std.specs.Prelude.{◌≡◌, []};
ghost use Rattle.definitions.specs.Arena.{capacity_limit};
ghost use Rattle.definitions.specs.Check.{WellFormed};
ghost use Rattle.definitions.specs.Insert.{kind_of, insert, insert_coded};
ghost use Rattle.lent.specs.Arenas.{held_in, SameBuffers};
ghost use Rattle.ptr.specs.Pointers.{pointer_of, pointer_words};
ghost use Rattle.insert_kinds.specs.Kinds.{insert_kind_of};
ghost use Rattle.refusals.specs.Refusal.{result_reply};

use base_insertion::{insert_between, new_slot};
use insert_check::check_link_insert_kind;
use insert_kinds::{LinkInsertKind, kind_of};
use lent::ArenaMut;
use ptr::{Ptr, Slot};
use refusals::Refusal;

// Inserts a link of payload x where the kind says, and answers its pointer.
#[tactic(auto, using(crate::proofs::Insertions::by_slot), unfolding(definitions::specs::Insert::insert_at))]
pub fn insert(arena: &mut ArenaMut<'_>, kind: LinkInsertKind, x: u32) -> Result<Ptr, Refusal>
    requires { WellFormed capacity_limit (held_in arena.old) }
    ensures inserted { result_reply pointer_words 2 result (held_in arena.new) [] ≡ insert (held_in arena.old) (insert_kind_of kind) x [] }
    ensures lent { SameBuffers arena.old arena.new }
{
    let now = arena.lent().shaped();
    let generation = now.current_generation();
    let t = new_slot(now.header, now.capacity());
    let place = check_link_insert_kind(now, t, kind).ok_or(Refusal::LinkRequirement)?;
    if t == Slot(0) {
        return Err(Refusal::NotWithinCapacity);
    }
    insert_between(arena, t, place.prev, place.next, x);
    Ok(Ptr { inx: t, generation })
}

// Inserts a link of payload x where the kind of the code says, with the links at p and q if it names them.
#[tactic(auto, unfolding(definitions::specs::Insert::insert_coded))]
pub fn insert_coded(
    arena: &mut ArenaMut<'_>,
    code: u32,
    p: Ptr,
    q: Ptr,
    x: u32,
) -> Result<Ptr, Refusal>
    requires { WellFormed capacity_limit (held_in arena.old) }
    ensures inserted { result_reply pointer_words 2 result (held_in arena.new) []
        ≡ insert_coded (held_in arena.old) (kind_of code (pointer_of p) (pointer_of q)) x [] }
    ensures lent { SameBuffers arena.old arena.new }
{
    let kind = kind_of(code, p, q).ok_or(Refusal::Command)?;
    insert(arena, kind, x)
}
