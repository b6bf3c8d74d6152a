//! Laws: which groups are dropped.

ghost use Rattle.std.specs.Prelude.{◌≡◌, ℕ, List, [], ◌∷◌, ◌++◌};
ghost use Rattle.elf_groups.specs.Dropped.{AreDroppedGroups};
ghost use Rattle.elf_groups.specs.Groups.{dropped_groups, seen_after, seen_in};

/// States, by its contract alone, that the groups whose signature was seen before are the dropped ones: those whose signature
/// a group of an earlier place has (ELF64 gABI, "Section Groups"). No other list is that of the dropped groups. After one file
/// more the signatures that were seen are those before it and its own.
pub fn groups_of_earlier_signatures_are_dropped()
    ensures next { (earlier : List (List ℕ)) (file : List ℕ) → seen_in [] (earlier ++ file ∷ []) ≡ seen_after (seen_in [] earlier) file }
    ensures dropped { (earlier : List (List ℕ)) (file : List ℕ) → AreDroppedGroups earlier file (dropped_groups (seen_in [] earlier) file) }
    ensures only { (earlier : List (List ℕ)) (file : List ℕ) (numbers : List ℕ) → AreDroppedGroups earlier file numbers → dropped_groups (seen_in [] earlier) file ≡ numbers }
{}
