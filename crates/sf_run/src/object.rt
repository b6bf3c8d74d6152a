//! `gen N` links a made object of `N` functions, and prints the summary.

ghost use Rattle.std.specs.Prelude.{◌≡◌, List, ℕ, IfSome, IsSomeAnd, map};
ghost use Rattle.std.specs.String.{string_bytes};
ghost use Rattle.sf_words.specs.Files.{files_of};
ghost use Rattle.section_commands.specs.Making.{ComesTo};
ghost use Rattle.sf_run.specs.Object.{GenComes, IsGen, gen_files};

use crate::linked::unlinked;
use section_commands::{Made, Outcome};
use sf_asm::{Input, InputBytes};
use sf_gen::object;
use sf_link::link;
use sf_text::{Output, summary};
use sf_words::{CommandFiles, FileList, Refusal, number_up_to, two_words};
use std::alloc::Global;

/// The most functions of a made object.
const MOST_FUNCTIONS: u32 = 100_000;

/// The address from which the sections of the made object are laid out.
const OBJECT_BASE: u64 = 0x40_0000;

/// The address of the section that is linked of the made object.
const SECTION_ADDRESS: u64 = 0x400_0000;

/// An object to be made and linked.
#[derive(Clone, Copy)]
pub struct Gen {
    /// How many functions it has.
    pub functions: u32,
}

impl Gen {
    /// Returns the object that the words ask for, if they have the form `gen N`.
    pub fn read(words: &[String]) -> Option<Gen>
        ensures found { IfSome result (λ object. IsGen (map string_bytes words.now) object.functions) }
        ensures only { (n : ℕ) → IsGen (map string_bytes words.now) n → IsSomeAnd result (λ object. object.functions ≡ n) }
    {
        let (command, count) = two_words(words)?;
        if command != "gen" {
            return None;
        }
        let functions = number_up_to(count, MOST_FUNCTIONS)?;
        Some(Gen { functions })
    }

    /// Returns that the command has no files.
    pub fn files<'a>(&self) -> CommandFiles<'a>
        ensures { files_of result ≡ gen_files }
    {
        CommandFiles {
            out: None,
            first: None,
            second: None,
            list: FileList::None,
        }
    }

    /// Makes the object, links it, and makes the summary.
    ///
    /// # Errors
    ///
    /// The first fault of linking, as a refusal; memory may run out at any time.
    pub fn make<'a, 'm>(&self, alloc: Global) -> Result<Made<'m>, Refusal<'a>>
        requires { (words : List (List ℕ)) × IsGen words self.now.functions }
        ensures { ComesTo (GenComes self.now.functions) result }
    {
        let bytes = object(alloc, self.functions)?;
        let input = Input {
            bytes: InputBytes::File(&bytes),
            base: OBJECT_BASE,
        };
        match link(alloc, &[input], SECTION_ADDRESS, None) {
            Ok(linked) => {
                let text = summary(
                    alloc,
                    self.functions,
                    linked.kept,
                    linked.omitted.len(),
                    &linked.section,
                )?;
                Ok(Made {
                    outcome: Outcome::Done,
                    section: None,
                    output: Output::Text(text),
                })
            }
            Err(fault) => Err(unlinked(&fault, None)),
        }
    }
}
