//! How a fault is passed to the code that prints it.

ghost use Rattle.std.specs.Prelude.{◌≡◌, ◌≤◌, [], length, IsSome};
ghost use Rattle.sf_model.specs.FaultShown.{shown_by};
ghost use Rattle.sf_model.specs.Notice.{HasLine};

use arrayvec::ArrayVec;

/// The part of the work that found a fault.
#[derive(Clone, Copy, Debug, PartialEq, Eq)]
pub enum Group {
    /// Reading an ELF file.
    Elf,
    /// Placing its sections.
    Place,
    /// Relocating a call frame section.
    Reloc,
    /// Reading the records of a call frame section.
    Record,
    /// Reading call frame instructions.
    Insn,
    /// Running call frame instructions.
    Machine,
    /// Reading an SFrame section.
    Section,
    /// Reading a core file.
    Core,
    /// Finding the modules of a process.
    Module,
    /// Putting functions together.
    Link,
}

/// Which fault of its group one is.
#[derive(Clone, Copy)]
pub struct FaultName {
    /// The part of the work that found the fault.
    pub group: Group,
    /// The fault's number in its group, as the C library has it: from 1 on, and 0 for what has no line.
    pub number: u8,
    /// The fault's name, as its line prints it.
    pub name: &'static str,
}

impl FaultName {
    /// Returns that a fault has no line, as out of memory. The fault has no number and no name.
    pub fn none(group: Group) -> FaultName
        ensures group { result.group ≡ group }
        ensures number { result.number ≡ 0 }
        ensures name { result.name.now ≡ [] }
    {
        FaultName {
            group,
            number: 0,
            name: "",
        }
    }
}

/// The values of a fault, in the order in which its line prints them.
pub type FaultValues = ArrayVec<u64, 4>;

/// A fault with a name and values. What no line prints, as out of memory, has neither.
pub trait Shown {
    ghost use Rattle.sf_model.specs.FaultShown.{ShownFault};

    ghost shown: { Self → ShownFault };

    /// Returns the fault's group, number and name.
    fn name(&self) -> FaultName
        ensures group { result.group ≡ (shown self.now).group }
        ensures number { result.number ≡ (shown self.now).number }
        ensures name { result.name.now ≡ (shown self.now).name }
        ensures short { length result.name.now ≤ 16 };

    /// Returns the fault's values.
    fn values(&self) -> FaultValues
        ensures { result.items ≡ (shown self.now).values };
}

/// Returns the list of these values. The caller owes at most four.
pub fn fault_values(values: &[u64]) -> FaultValues
    requires { length values.now ≤ 4 }
    ensures { result.items ≡ values.now }
{
    let mut list = ArrayVec::new();
    let _fits = list.try_extend_from_slice(values);
    list
}

/// A fault as its line shows it.
#[derive(Drop)]
pub struct Notice {
    /// The item in which the fault was found, or none in the group `Link`.
    pub item: Option<u32>,
    /// Which fault it is.
    pub fault: FaultName,
    /// Its values.
    pub values: FaultValues,
}

impl Notice {
    /// Returns the notice of a fault that was found in this item.
    pub fn new<F: Shown>(item: Option<u32>, fault: &F) -> Notice
        ensures shown { shown_by result ≡ record { item = item; fault = F.shown fault.now } }
        ensures named { length result.fault.name.now ≤ 16 }
        ensures line { IsSome item → HasLine result }
    {
        Notice {
            item,
            fault: fault.name(),
            values: fault.values(),
        }
    }
}
