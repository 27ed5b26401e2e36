// The layout of canonical compression: chain after chain, each link brought to the slot after those that are laid out.
#![tactic(auto)]

ghost use Rattle.std.specs.Prelude.{◌≡◌, ◌≢◌, ℕ, ◌+◌, ◌≤◌, ◌<◌, length, get_or, IfSome, IfNone};
ghost use Rattle.definitions.specs.Arena.{Arena, capacity_limit, stack_length};
ghost use Rattle.definitions.specs.Compress.{Laying, lowest_from, start_of, lay_chain, laid_out};
ghost use Rattle.canonical_exchange.specs.Lent.{lent};
ghost use Rattle.canonical_exchange.specs.Layout.{columns_of, SameColumns};
ghost use Rattle.canonical_layout.specs.Held.{Occupied, Rooted};
ghost use Rattle.canonical_layout.specs.Steps.{slot_or_0, InChain, LinkLaid, ChainLaid, Ready, AllLaid};

use canonical_exchange::Layout;
use columns::slot_at;
use ptr::Slot;

// Puts the link in slot t into the slot after those that are laid out; what is there goes to slot t. Answers the slot of the link's next.
pub fn lay_link(layout: &mut Layout<'_>, laid: usize, t: Slot) -> Slot
    requires { (a : Arena) × (l : Laying) × (first : ℕ) × InChain a l first t.0 (columns_of layout.old) laid }
    ensures laid { (a : Arena) (l : Laying) (first : ℕ) → InChain a l first t.0 (columns_of layout.old) laid
        → LinkLaid l t.0 (columns_of layout.new) result.0 }
    ensures lent { SameColumns layout.old layout.new }
{
    let i = Slot((laid + 1) as u32);
    if i != t {
        layout.exchange(i, t);
    }
    Slot(layout.next[laid])
}

// Lays out the chain that starts in slot start, link after link along next, after those that are laid out. Answers how many are laid out then.
pub fn lay_chain(layout: &mut Layout<'_>, laid: usize, start: Slot) -> usize
    requires { (a : Arena) × (l : Laying) × InChain a l l.i start.0 (columns_of layout.old) laid }
    ensures laid { (a : Arena) (l : Laying) → InChain a l l.i start.0 (columns_of layout.old) laid
        → ChainLaid a l (lay_chain (stack_length l.slots) l.i start.0 l) laid (columns_of layout.new) result }
    ensures lent { SameColumns layout.old layout.new }
{
    let first = Slot((laid + 1) as u32);
    let mut count = laid;
    let mut t = start;
    loop {
        t = lay_link(layout, count, t);
        count += 1;
        // a closed chain comes back to where its first link is now, not to where it started
        if t == Slot(0) || t == first {
            return count;
        }
    }
}

// The place of the first word that is not 0.
fn first_word(words: &[u32]) -> Option<usize>
    ensures some { IfSome result (λ i. (i < length words.now) × (get_or words.now i 0 ≢ 0) × ((k : ℕ) → k < i → get_or words.now k 0 ≡ 0)) }
    ensures none { IfNone result ((k : ℕ) → k < length words.now → get_or words.now k 0 ≡ 0) }
{
    words.iter().position(|word| *word != 0)
}

// The lowest slot after the first `from` in which somebody is. Somebody is where the where-from column has a word.
pub fn lowest_link(where_from: &[u32], from: usize) -> Option<Slot>
    requires { (from ≤ length where_from.now) × (length where_from.now ≤ capacity_limit) }
    ensures lowest { (a : Arena) → Occupied a where_from.now → slot_or_0 result ≡ lowest_from a (from + 1) }
    ensures some { IfSome result (λ s. 0 < s.0) }
{
    match first_word(&where_from[from..]) {
        Some(i) => Some(Slot((from + i + 1) as u32)),
        None => None,
    }
}

// The start of the chain of the link in slot o: back along prev until there is none. Slot o itself if the chain is closed.
#[tactic(auto, using(crate::proofs::Search::back_starts, crate::proofs::Search::back_within, crate::proofs::Search::back_stops, crate::proofs::Search::back_round, crate::proofs::Search::back_goes_on, crate::proofs::Search::back_ends))]
pub fn start_of(prev: &[u32], o: Slot) -> Slot
    requires { (b : Arena) × Rooted b prev.now o.0 }
    ensures { (b : Arena) → Rooted b prev.now o.0 → result.0 ≡ start_of b (stack_length b) o.0 o.0 }
{
    let mut s = o;
    for _step in 0..prev.len() {
        let before = slot_at(prev, s);
        if before == Slot(0) {
            return s;
        }
        if before == o {
            return o;
        }
        s = before;
    }
    o
}

// Lays out chain after chain: the lowest link that is not in its place, its chain's start, and from there along next.
fn lay_all(layout: &mut Layout<'_>)
    requires { (a : Arena) × Ready a (columns_of layout.old) }
    ensures laid { (a : Arena) → Ready a (columns_of layout.old) → AllLaid a (laid_out a) (columns_of layout.new) }
    ensures lent { SameColumns layout.old layout.new }
{
    let mut laid: usize = 0;
    let mut passed: usize = 0;
    while let Some(found) = lowest_link(layout.occupants(), passed) {
        let start = start_of(layout.prev_column(), found);
        laid = lay_chain(layout, laid, start);
        // no link waits below the slot that was found, so that the search goes on there and all searches together are linear
        passed = laid.max(found.0 as usize - 1);
    }
}

// Lays out all chains of a stack that fills these columns.
pub fn lay_chains(prev: &mut [u32], next: &mut [u32], payload: &mut [u32], where_from: &mut [u32])
    requires { (a : Arena) × Ready a (lent prev.old next.old payload.old where_from.old) }
    ensures { (a : Arena) → Ready a (lent prev.old next.old payload.old where_from.old)
        → AllLaid a (laid_out a) (lent prev.new next.new payload.new where_from.new) }
{
    lay_all(&mut Layout {
        prev,
        next,
        payload,
        where_from,
    });
}
