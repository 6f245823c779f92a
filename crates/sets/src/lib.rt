// Sets of tasks as 32-bit numbers: bit n stands for task n. A task number of 32 or more is in no set.
#![tactic(auto)]

ghost use Rattle.std.specs.Prelude.{◌≡◌, ◌<◌, ◌^◌};
ghost use Rattle.std.specs.Iterator.{YieldsFirst, item_count};
ghost use Rattle.sets.specs.Members.{members_left};
ghost use Rattle.sets.specs.Sets as sets;

// Whether task `n` is in `set`.
pub fn contains(set: u32, n: u8) -> bool
    ensures { result ≡ sets.member n set }
{
    if n < 32 { (set >> n) & 1 == 1 } else { false }
}

// `set` with task `n`.
#[tactic(auto, using(crate::proofs::Masks::or_insert, crate::proofs::Masks::insert_past))]
pub fn insert(set: u32, n: u8) -> u32
    ensures { result ≡ sets.insert n set }
{
    if n < 32 { set | (1 << n) } else { set }
}

// `set` without task `n`.
#[tactic(auto, using(crate::proofs::Masks::and_remove, crate::proofs::Masks::remove_past))]
pub fn remove(set: u32, n: u8) -> u32
    ensures { result ≡ sets.remove n set }
{
    if n < 32 { set & !(1 << n) } else { set }
}

// The tasks in `a` or in `b`.
#[tactic(auto, using(crate::proofs::Masks::or_union))]
pub fn union(a: u32, b: u32) -> u32
    ensures { result ≡ sets.union a b }
{
    a | b
}

// The tasks in `a` and in `b`.
#[tactic(auto, using(crate::proofs::Masks::and_intersection))]
pub fn intersection(a: u32, b: u32) -> u32
    ensures { result ≡ sets.intersection a b }
{
    a & b
}

// The tasks in `a` and not in `b`.
#[tactic(auto, using(crate::proofs::Masks::and_difference))]
pub fn difference(a: u32, b: u32) -> u32
    ensures { result ≡ sets.difference a b }
{
    a & !b
}

// The lowest task in `set`, 32 if there is none: a loop over the members goes from one to the next at once.
#[tactic(auto, using(crate::proofs::Masks::trailing_lowest))]
pub fn lowest(set: u32) -> u8
    ensures { result ≡ sets.lowest set }
{
    u32::trailing_zeros(set) as u8
}

// `set` without its lowest task.
#[tactic(auto, using(crate::proofs::Masks::rest_none, crate::proofs::Masks::and_rest))]
pub fn rest(set: u32) -> u32
    ensures { result ≡ sets.remove (sets.lowest set) set }
{
    if set == 0 {
        return 0;
    }
    set & (set - 1)
}

// What is left of a set on the way from member to member.
#[derive(Drop)]
pub struct EachMember {
    left: u32,
}

// The members of `set`, lowest first.
pub fn members(set: u32) -> EachMember
    ensures { result.left ≡ set }
{
    EachMember { left: set }
}

impl Iterator for EachMember {
    type Item = u8;

    ghost next_gives = { λ before n after. YieldsFirst members_left before n after × (after.left < 2 ^ 32) };

    ghost remaining = { item_count members_left };

    fn next(&mut self) -> Option<u8> {
        let set = self.left;
        if set == 0 {
            return None;
        }
        self.left = rest(set);
        Some(lowest(set))
    }
}
