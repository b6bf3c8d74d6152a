//! Laws over the definitions: functions that do nothing, for their contracts.

ghost use Rattle.std.specs.Prelude.{◌≡◌, ℕ, true, List, Result};
ghost use Rattle.sf_model.specs.declared.verdict.Verdict.{Verdict as verdict};
ghost use Rattle.sf_model.specs.Table.{Table};
ghost use Rattle.sf_asm.specs.Functions.{Object};
ghost use Rattle.sf_verify.specs.declared.fault.VerifyFault.{VerifyFault as verify_fault};
ghost use Rattle.sf_verify.specs.Verifying.{Verifies};
ghost use Rattle.sf_model.specs.declared.machine.Arch.{Arch as arch};
ghost use Rattle.frame_functions.specs.declared.keyed_content.KeyedContent.{KeyedContent as said};
ghost use Rattle.sf_verify.specs.Agreement.{IsFitting, RecoverSameFrame, agree};

/// Contents recover alike exactly if they are equal, and also their keys are equal if they are signed.
pub fn the_test_of_agreement_is_exact()
    ensures sound { (s d : said) → agree s d ≡ true → RecoverSameFrame s d }
    ensures complete { (a : arch) (s d : said) → IsFitting a s → IsFitting a d → RecoverSameFrame s d → agree s d ≡ true }
{}

/// Verifying a section has at most one result: the verdict, or the first fault.
pub fn verifying_comes_to_one_result()
    ensures { (bytes : List ℕ) (table : Table) (objects : List Object) (one other : Result verdict verify_fault) → Verifies bytes table objects one → Verifies bytes table objects other → one ≡ other }
{}
