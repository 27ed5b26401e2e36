// The table of all small arenas, each packed into one number (REFERENCE, Small arenas).
#![tactic(auto)]

ghost use Rattle.std.specs.Prelude.{◌≡◌, ◌≤◌, ◌<◌, MatchOption};
ghost use Rattle.statements.specs.SmallArenas.{entry};
ghost use Rattle.all_small.specs.SmallArenas.{small_arenas};
ghost use Rattle.all_small.proofs.Packed.{unpacked};

// How many small arenas there are.
pub const SMALL_ARENAS: u32 = 90;

// All small arenas in their order. The digits of an entry to the base 4, from the lowest on, are its stack length, link count and root, and then, slot by
// slot, prev, next, generation and payload.
const TABLE: [u32; 90] = [
    0, 6149, 6469, 273, 2627594, 2791434, 2644490, 2627914, 2791754, 2693258, 2710154, 2621718,
    2785558, 131602, 65826, 137254, 137574, 942151695, 1005066255, 950736911, 942315535,
    1005230095, 975755279, 984340495, 942168591, 1005083151, 950753807, 946346767, 946510607,
    979950351, 942152015, 1005066575, 950737231, 942315855, 1005230415, 975755599, 984340815,
    942217359, 1005131919, 975820943, 942234255, 1005148815, 946412431, 980016015, 958929103,
    967514319, 959092943, 958945999, 967531215, 963124175, 963288015, 942145819, 1005060379,
    950731035, 942309659, 1005224219, 975749403, 984334619, 939655703, 1002570263, 50528787,
    33686291, 52953879, 53117719, 939589927, 1002504487, 16974115, 50397987, 939661355, 1002575915,
    50534439, 943856427, 939661675, 1002576235, 50534759, 956438763, 960633835, 33620275, 19398967,
    19562807, 16908851, 33691703, 52959291, 53123131, 52976187, 33692023, 52959611, 53123451,
    53024955, 53041851,
];

// The small arena of an index, packed.
pub fn packed_arena(index: usize) -> u32
    requires { index < 90 }
    ensures { unpacked result ≡ entry small_arenas index }
{
    TABLE[index]
}

// The small arena of an index, packed; none where the index is past the last.
pub fn get_packed_arena(index: usize) -> Option<u32>
    ensures { MatchOption result (90 ≤ index) (λ packed. (index < 90) × (unpacked packed ≡ entry small_arenas index)) }
{
    if index < TABLE.len() {
        Some(packed_arena(index))
    } else {
        None
    }
}
