// Sets of up to 32 entries, as numbers: definitions in specs/, laws in proofs/.
#![tactic(auto)]

ghost use Rattle.std.specs.Prelude.{◌≡◌, ◌<◌, ◌≤◌, ◌^◌, eqb};
ghost use Rattle.std.specs.Int.Bits.{bit_and};
ghost use Rattle.sets.specs.Sets.{has, size, ◌∪◌, all_entries};

#[tactic(auto, unfolding(crate::specs::Sets::has))]
pub fn has(set: u32, i: usize) -> bool
    requires { i < 32 }
    ensures { result ≡ has set i }
{
    (set >> i) % 2 == 1
}

pub fn single(i: usize) -> u32
    requires { i < 32 }
    ensures { result ≡ 2 ^ i }
{
    1u32 << i
}

pub fn union(a: u32, b: u32) -> u32
    ensures { result ≡ a ∪ b }
{
    a | b
}

#[tactic(auto, using(crate::proofs::Sizes::size_ones))]
pub fn size(set: u32) -> usize
    ensures { result ≡ size 32 set }
{
    set.count_ones() as usize
}

// All n entries: the 32 binary digits 1, but for those of the entries from n on.
#[tactic(auto, using(crate::proofs::Subsets::all_entries_shift))]
pub fn all_entries(n: usize) -> u32
    requires { (1 ≤ n) × (n ≤ 32) }
    ensures { result ≡ all_entries n }
{
    u32::MAX >> (32 - n)
}

// The two share no entry.
pub fn are_disjoint(a: u32, b: u32) -> bool
    ensures { result ≡ eqb (bit_and a b) 0 }
{
    (a & b) == 0
}
