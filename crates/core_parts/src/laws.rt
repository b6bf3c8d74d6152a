//! Laws over the definitions: functions that do nothing, for their contracts.

ghost use Rattle.std.specs.Prelude.{◌≡◌, ℕ, List, true};
ghost use Rattle.sf_bytes.specs.declared.file_part.FilePart.{FilePart as file_part};
ghost use Rattle.sf_bytes.specs.Parts.{AreParts};
ghost use Rattle.core_walk.specs.PartWalk.{IsPartOf};
ghost use Rattle.core_parts.specs.declared.segment.SegmentHead.{SegmentHead as segment_head};
ghost use Rattle.core_parts.specs.Heads.{heads_rise, memory_in};
ghost use Rattle.core_parts.specs.Read.{regions_read};

/// Says that what is read of parts of a file is read of its whole memory, if the segments' addresses rise.
#[tactic(auto, using(crate::proofs::Windows::parts_are_part))]
pub fn memory_of_parts_is_a_part()
    ensures { (file : List ℕ) (heads : List segment_head) (parts : List file_part) → heads_rise 0 heads ≡ true
        → AreParts file parts → IsPartOf (regions_read heads parts) (memory_in file heads) }
{}
