//! Laws over the definitions: functions that do nothing, for their contracts.

ghost use Rattle.std.specs.Prelude.{◌≡◌, ℕ, List};
ghost use Rattle.sf_model.specs.Memory.{Region};
ghost use Rattle.sf_model.specs.Walk.{LookUp, ThreadState, look_up_walk};
ghost use Rattle.core_walk.specs.PartWalk.{IsPartOf, MissedNothing};

/// Says that a walk by a part of a memory is the walk by the whole, unless it stopped at eight bytes that the whole has.
#[tactic(auto, using(crate::proofs::PartWalks::same_walk))]
pub fn a_walk_by_a_part_is_the_walk()
    ensures { (rows : LookUp) (thread : ThreadState) (part whole : List Region) (depth : ℕ) → IsPartOf part whole
        → MissedNothing whole (look_up_walk rows thread part depth).stop
        → look_up_walk rows thread part depth ≡ look_up_walk rows thread whole depth }
{}
