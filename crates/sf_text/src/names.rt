//! The names of reasons, and of groups of faults.

ghost use Rattle.std.specs.Prelude.{◌≡◌, ◌≤◌, length};
ghost use Rattle.sf_text.specs.Names.{reason_name, group_name};

use sf_model::{Group, Reason};

/// Returns the name of a reason for omitting a function.
pub(crate) fn name_of_reason(reason: Reason) -> &'static str
    ensures { result.now ≡ reason_name reason }
{
    match reason {
        Reason::EmptyRange => "EmptyRange",
        Reason::SizeTooLarge => "SizeTooLarge",
        Reason::ReturnColumn => "ReturnColumn",
        Reason::SignalFrame => "SignalFrame",
        Reason::NoCfa => "NoCfa",
        Reason::CfaExpression => "CfaExpression",
        Reason::CfaRegister => "CfaRegister",
        Reason::CfaOffset => "CfaOffset",
        Reason::SpRule => "SpRule",
        Reason::RaRule => "RaRule",
        Reason::RaOffset => "RaOffset",
        Reason::FpRule => "FpRule",
        Reason::FpOffset => "FpOffset",
        Reason::FpWithoutRa => "FpWithoutRa",
        Reason::SignState => "SignState",
    }
}

/// Returns the name of a group of faults.
pub(crate) fn name_of_group(group: Group) -> &'static str
    ensures value { result.now ≡ group_name group }
    ensures short { length result.now ≤ 7 }
{
    match group {
        Group::Elf => "elf",
        Group::Place => "place",
        Group::Reloc => "reloc",
        Group::Record => "record",
        Group::Insn => "insn",
        Group::Machine => "machine",
        Group::Section => "section",
        Group::Core => "core",
        Group::Module => "module",
        Group::Link => "link",
    }
}
