//! Laws: what runs come to.

ghost use Rattle.std.specs.Prelude.{◌≡◌, ℕ, All, List, [], ◌∷◌, Some, None, Result};
ghost use Rattle.sf_model.specs.Section.{AreBytes};
ghost use Rattle.sf_asm.specs.Accepted.{IsAccepted};
ghost use Rattle.frame_functions.specs.declared.read_function.ReadFunction.{ReadFunction};
ghost use Rattle.sf_asm.specs.declared.fault.LinkFault.{LinkFault};
ghost use Rattle.sf_asm.specs.Functions.{Object};
ghost use Rattle.sf_asm.specs.Linking.{Links};
ghost use Rattle.sf_words.specs.Forms.{SectionAndInputs};
ghost use Rattle.section_commands.specs.declared.made.Outcome.{Outcome as outcome};
ghost use Rattle.section_commands.specs.Coming.{Coming, Makes};
ghost use Rattle.section_commands.specs.Walk.{WalkComes};
ghost use Rattle.sf_run.specs.Backtrace.{BacktraceComes, BacktraceWords, walk_by_section};
ghost use Rattle.sf_run.specs.Comes.{AreItems, Comes, RefusesNothing, command_limit};
ghost use Rattle.sf_run.specs.Commands.{CommandWords, Link};
ghost use Rattle.sf_run.specs.Inputs.{objects_in};

/// States that a command and the bytes of its items come to at most one thing.
#[tactic(auto, using(crate::proofs::EachCommand::one_coming))]
pub fn a_run_comes_to_one()
    ensures { (command : CommandWords) (items : List (List ℕ)) (one other : Coming) → AreItems command items → Comes command items one → Comes command items other → one ≡ other }
{}

/// States that a command and the bytes of its items come to something: a refusal, a limit, or what is made.
#[tactic(auto, using(crate::proofs::EachCommand::some_coming))]
pub fn a_run_comes_to_something()
    ensures { (command : CommandWords) (items : List (List ℕ)) → AreItems command items → All AreBytes items → (coming : Coming) × Comes command items coming }
{}

/// States that a walk by the section that `backtrace` writes comes to the text that `backtrace` prints.
#[tactic(auto, using(crate::proofs::WalkedAgain::walked_again))]
pub fn a_backtrace_is_the_walk_by_its_section()
    ensures { (backtrace : BacktraceWords) (core : List ℕ) (items : List (List ℕ)) (section text : List ℕ) → BacktraceComes backtrace (core ∷ items) (Makes outcome.Done (Some section) text) → WalkComes (walk_by_section backtrace) (section ∷ core ∷ []) (Makes outcome.Done None text) }
{}

/// States that linking inputs comes to a result: the functions in order, or a fault.
#[tactic(auto, using(crate::proofs::SomeLinked::links_some))]
pub fn linking_comes_to_a_result()
    ensures { (objects : List Object) (at : ℕ) → (result : Result (List ReadFunction) LinkFault) × Links None objects at result }
{}

/// States that a run of `link` refuses nothing exactly if its inputs are within the limits of loading and can be linked.
pub fn nothing_is_refused_of_inputs_that_can_be_linked()
    ensures accepted { (link : SectionAndInputs) (items : List (List ℕ)) → command_limit (Link link) items ≡ None → IsAccepted None (objects_in link.inputs items) link.section.at → RefusesNothing (Link link) items }
    ensures only { (link : SectionAndInputs) (items : List (List ℕ)) → RefusesNothing (Link link) items → (command_limit (Link link) items ≡ None) × IsAccepted None (objects_in link.inputs items) link.section.at }
{}
