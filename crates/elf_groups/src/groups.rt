//! The COMDAT groups whose signature an earlier one has.

ghost use Rattle.std.specs.Prelude.{◌≡◌, ◌<◌, ◌+◌, ◌^◌, ℕ, List, [], ◌∷◌, ◌++◌, IfOk, OnOk, bytes_eq, length};
ghost use Rattle.std.specs.List.{list_any};
ghost use Rattle.elf_read.specs.Input.{file};
ghost use Rattle.elf_read.specs.Views.{text_bytes};
ghost use Rattle.elf_groups.specs.Groups.{group_signature};
ghost use Rattle.elf_groups.specs.Groups.{dropped_groups, was_seen, seen_after, with_signature};
ghost use Rattle.elf_groups.specs.SeenSignatures.{ForFile, ForText, HasSeen, HasTexts};

use crate::file_strings::FileStrings;
use crate::text_numbers::{BLOCK, TextNumbers};
use elf_read::{ElfInput, Text};
use std::alloc::{AllocError, Global};
use std::collections::BTreeSet;

/// The signatures of the COMDAT groups that were seen. Many may be ends of one long text, so whole blocks are compared by
/// their numbers.
#[derive(Drop)]
pub struct SeenSignatures<'a> {
    blocks: TextNumbers<'a>,
    /// Each by the number of its whole blocks, and what comes before these.
    signatures: BTreeSet<(usize, &'a [u8])>,
}

impl<'a> SeenSignatures<'a> {
    /// Begins with no signatures.
    pub fn new(alloc: Global) -> SeenSignatures<'a>
        ensures { HasSeen result [] }
    {
        SeenSignatures {
            blocks: TextNumbers::new(alloc),
            signatures: BTreeSet::new(alloc),
        }
    }

    // Puts a signature at a place of a file into the set, and returns whether the set had it.
    fn is_repeated(
        &mut self,
        texts: &mut FileStrings,
        place: u64,
        signature: &'a [u8],
    ) -> Result<bool, AllocError>
        requires { place + length signature.now < 2 ^ 64 }
        ensures repeated { IfOk result (λ repeated. ForText self.old texts.old place signature.now (λ file seen. repeated ≡ list_any (bytes_eq signature.now) seen)) }
        ensures seen { OnOk result (ForText self.old texts.old place signature.now (λ file seen. HasSeen self.new (seen ++ signature.now ∷ []))) }
        ensures texts { OnOk result (ForText self.old texts.old place signature.now (λ file seen. HasTexts file self.new.blocks texts.new)) }
    {
        let (front, whole) = signature.split_at(signature.len() % BLOCK);
        let number = texts.number(&mut self.blocks, place + front.len() as u64, whole)?;
        Ok(!self.signatures.insert((number, front))?)
    }

    // Puts a text of a file into the set, and returns whether the set had it.
    fn is_text_repeated(
        &mut self,
        texts: &mut FileStrings,
        text: &Text<'a>,
    ) -> Result<bool, AllocError>
        requires { text.now.place + length text.now.rest.now < 2 ^ 64 }
        ensures repeated { IfOk result (λ repeated. ForText self.old texts.old text.now.place text.now.rest.now (λ file seen. repeated ≡ list_any (bytes_eq (text_bytes text.now)) seen)) }
        ensures seen { OnOk result (ForText self.old texts.old text.now.place text.now.rest.now (λ file seen. HasSeen self.new (seen ++ text_bytes text.now ∷ []))) }
        ensures texts { OnOk result (ForText self.old texts.old text.now.place text.now.rest.now (λ file seen. HasTexts file self.new.blocks texts.new)) }
    {
        let len = texts.ends.len_of(text)?;
        let (signature, _) = text.rest.split_at(len);
        self.is_repeated(texts, text.place, signature)
    }

    // Returns whether a section is a COMDAT group whose signature the set had, and puts the signature into it.
    #[tactic(auto, unfolding(crate::specs::Groups::group_signature))]
    fn is_dropped(
        &mut self,
        texts: &mut FileStrings,
        elf: &ElfInput<'a>,
        i: u32,
    ) -> Result<bool, AllocError>
        ensures dropped { IfOk result (λ dropped. ForFile self.old texts.old (file elf.now) (λ seen. dropped ≡ was_seen seen (group_signature (file elf.now) i))) }
        ensures seen { OnOk result (ForFile self.old texts.old (file elf.now) (λ seen. HasSeen self.new (with_signature seen (group_signature (file elf.now) i)))) }
        ensures texts { OnOk result (ForFile self.old texts.old (file elf.now) (λ seen. HasTexts (file elf.now) self.new.blocks texts.new)) }
    {
        match elf.group(i) {
            Some(group) => {
                if group.comdat {
                    self.is_text_repeated(texts, &group.signature)
                } else {
                    Ok(false)
                }
            }
            None => Ok(false),
        }
    }

    /// Lists the numbers of a file's COMDAT groups whose signature was seen before, by rising number. The signatures of
    /// the file are seen from then on.
    ///
    /// # Errors
    ///
    /// Out of memory alone. Nothing is known of the set then.
    pub fn dropped_groups(
        &mut self,
        alloc: Global,
        elf: &ElfInput<'a>,
    ) -> Result<Vec<u32>, AllocError>
        ensures dropped { IfOk result (λ dropped. (seen : List (List ℕ)) → HasSeen self.old seen → dropped.items ≡ dropped_groups seen (file elf.now)) }
        ensures seen { OnOk result ((seen : List (List ℕ)) → HasSeen self.old seen → HasSeen self.new (seen_after seen (file elf.now))) }
    {
        let mut texts = FileStrings::new(alloc);
        let mut dropped = Vec::new(alloc);
        for i in 0..elf.sections() {
            if self.is_dropped(&mut texts, elf, i)? {
                dropped.push(i)?;
            }
        }
        Ok(dropped)
    }
}
