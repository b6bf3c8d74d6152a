//! The rules of common information entries.

ghost use Rattle.std.specs.Prelude.{◌≡◌, ◌<◌, List, IfOk, OnOk, length};
ghost use Rattle.sf_bytes.specs.Cursor.{cursor};
ghost use Rattle.cfa_insn.specs.Listing.{listing};
ghost use Rattle.frame_functions.specs.Descriptions.{Common as common, HasInitial};
ghost use Rattle.signal_frames.specs.InitialRules.{AreInitialRules};
ghost use Rattle.module_tables.specs.Rules.{AreKept};

use sf_base::NoMemory;
use sf_bytes::Part;
use signal_frames::{InitialRules, initial_rules};
use std::alloc::Global;
use std::collections::BTreeMap;

/// The least number of bytes of instructions of an entry whose rules are kept.
const LONG: usize = 64;

/// The rules of the long common information entries that were named, by the number of what their functions share: the
/// instructions of a long entry are run once, whatever the order in which functions name the entries.
#[derive(Drop)]
pub struct KeptRules<'a> {
    long: BTreeMap<u32, InitialRules<'a>>,
}

impl<'a> KeptRules<'a> {
    /// Makes an empty map.
    pub fn new(alloc: Global) -> KeptRules<'a>
        ensures { (commons : List common) → AreKept commons result }
    {
        KeptRules {
            long: BTreeMap::new(alloc),
        }
    }

    // Returns the rules of an entry whose instructions are long.
    fn long_rules(&mut self, number: u32, initial: Part<'a>) -> Result<InitialRules<'a>, NoMemory>
        ensures rules { (commons : List common) → AreKept commons self.old → HasInitial commons number (listing (cursor initial.entry)) → IfOk result (AreInitialRules (listing (cursor initial.entry))) }
        ensures kept { (commons : List common) → AreKept commons self.old → HasInitial commons number (listing (cursor initial.entry)) → OnOk result (AreKept commons self.new) }
    {
        if let Some(rules) = self.long.get(&number) {
            return Ok(*rules);
        }
        let rules = initial_rules(initial);
        self.long.insert(number, rules)?;
        Ok(rules)
    }

    /// Returns the rules of an entry by the number of what its functions share, and its instructions.
    pub fn find(&mut self, number: u32, initial: Part<'a>) -> Result<InitialRules<'a>, NoMemory>
        ensures rules { (commons : List common) → AreKept commons self.old → HasInitial commons number (listing (cursor initial.entry)) → IfOk result (AreInitialRules (listing (cursor initial.entry))) }
        ensures kept { (commons : List common) → AreKept commons self.old → HasInitial commons number (listing (cursor initial.entry)) → OnOk result (AreKept commons self.new) }
    {
        if initial.bytes.len() < LONG {
            return Ok(initial_rules(initial));
        }
        self.long_rules(number, initial)
    }
}
