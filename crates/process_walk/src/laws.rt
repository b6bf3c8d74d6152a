//! Laws over the definitions: functions that do nothing, for their contracts.

ghost use Rattle.std.specs.Prelude.{◌≡◌, ℕ, Bool, List, Option, None};
ghost use Rattle.sf_model.specs.Memory.{Region};
ghost use Rattle.sf_model.specs.Walk.{LookUp, Recovering, ThreadState, recover_by, walk_by};
ghost use Rattle.core_walk.specs.PartWalk.{IsPartOf, MissedNothing};
ghost use Rattle.signal_frames.specs.declared.frame.SignalFrame.{SignalFrame};
ghost use Rattle.process_walk.specs.Masks.{GoesOnUnsigned, recover_unmasked};
ghost use Rattle.process_walk.specs.Walk.{process_walk, rows_alone};

/// Says that without signal frames a walk lists the frames of the walk by rows, and stops as it does.
#[tactic(auto, using(crate::proofs::Rows::by_rows))]
pub fn walks_without_signal_frames_are_by_rows()
    ensures { (recover_at : Recovering) (thread : ThreadState) (memory : List Region) (depth : ℕ) → rows_alone (process_walk recover_at (λ pc. None) thread memory depth) ≡ walk_by recover_at thread depth }
{}

/// Says that a walk in a process without masks lists the frames of the walk that stops at each signed return address, and goes on only where that
/// one stops at an address below 2^48.
#[tactic(auto, using(crate::proofs::Onward::go_on))]
pub fn walks_without_masks_go_on()
    ensures { (recover_at : Recovering) (signal_at : ℕ → Option SignalFrame) (is_unmasked : Bool) (thread : ThreadState) (memory : List Region) (depth : ℕ)
        → GoesOnUnsigned (process_walk (recover_unmasked is_unmasked thread.mask recover_at) signal_at thread memory depth) (process_walk recover_at signal_at thread memory depth) }
{}

/// Says that a walk by a part of a memory is the walk by the whole, unless it stopped at eight bytes that the whole has.
#[tactic(auto, using(crate::proofs::PartWalks::by_a_part))]
pub fn a_walk_by_a_part_is_the_walk()
    ensures { (rows : LookUp) (signal_at : ℕ → Option SignalFrame) (is_unmasked : Bool) (thread : ThreadState) (part whole : List Region) (depth : ℕ) → IsPartOf part whole
        → MissedNothing whole (process_walk (recover_unmasked is_unmasked thread.mask (recover_by rows part)) signal_at thread part depth).stop
        → process_walk (recover_unmasked is_unmasked thread.mask (recover_by rows part)) signal_at thread part depth ≡ process_walk (recover_unmasked is_unmasked thread.mask (recover_by rows whole)) signal_at thread whole depth }
{}
