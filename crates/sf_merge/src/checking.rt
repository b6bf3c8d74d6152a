//! The checks of sections that are to be merged.

ghost use Rattle.std.specs.Prelude.{◌≡◌, ◌<◌, ◌≤◌, Some, None, map, length, All, IfOk, OnOk, IfErr};
ghost use Rattle.std.specs.Option.{option_map};
ghost use Rattle.sf_model.specs.Table.{Table as table_fact};
ghost use Rattle.sf_decode.specs.View.{table_of};
ghost use Rattle.sf_functions.specs.Neighbours as neighbours;
ghost use Rattle.sf_merge.specs.Heads.{head_size, head_start, shared_by_heads};
ghost use Rattle.sf_merge.specs.Merging.{fault_of_limit, limits_fault_in_all, other_machine_fault, same_arch, shared_address_fault, unless};

use crate::fault::MergeFault;
use crate::functions::LocatedFunctions;
use crate::head::LocatedFunction;
use sf_decode::View;
use sf_functions::{HasStart, Limit, exceeded, first_overlap};
use sf_model::Arch;

/// Returns whether two machines are the same.
fn same_arch(one: Arch, other: Arch) -> bool
    ensures { result ≡ same_arch one other }
{
    one == other
}

/// Checks that all sections are for one machine, and returns it.
pub fn check_machines(views: &[View<'_>]) -> Result<Arch, MergeFault>
    requires some { 0 < length views.now }
    requires few { length views.now ≤ 512 }
    ensures one { IfOk result (λ arch. All (λ (table : table_fact). table.arch ≡ arch) (map table_of views.now)) }
    ensures none { OnOk result (other_machine_fault (map table_of views.now) ≡ None) }
    ensures fault { IfErr result (λ fault. other_machine_fault (map table_of views.now) ≡ Some fault) }
{
    let arch = views[0].arch();
    let mut item = 0;
    for view in views {
        if !same_arch(arch, view.arch()) {
            return Err(MergeFault::MixedArch(0, item));
        }
        item += 1;
    }
    Ok(arch)
}

/// Returns the fault of a limit of all sections together.
fn fault_of_limit(limit: Limit) -> MergeFault
    ensures { result ≡ fault_of_limit limit }
{
    match limit {
        Limit::Functions => MergeFault::TooManyFunctions,
        Limit::Rows => MergeFault::TooManyRows,
    }
}

/// Checks the limits: functions first, then rows.
pub fn check_limits(views: &[View<'_>]) -> Result<(), MergeFault>
    requires { length views.now ≤ 512 }
    ensures { result ≡ unless (limits_fault_in_all (map table_of views.now)) }
{
    let mut functions = 0;
    let mut rows = 0;
    for view in views {
        functions += view.len() as usize;
        rows += view.row_count() as usize;
    }
    match exceeded(functions, rows) {
        Some(limit) => Err(fault_of_limit(limit)),
        None => Ok(()),
    }
}

/// Checks the head of each function against the one before it.
fn check_heads(heads: &[LocatedFunction]) -> Result<(), MergeFault>
    ensures { result ≡ unless (option_map shared_by_heads (neighbours.first_overlap head_start head_size heads.now)) }
{
    match first_overlap(heads) {
        Some((before, function)) => Err(MergeFault::Overlap(
            before.start(),
            before.item,
            function.start(),
            function.item,
        )),
        None => Ok(()),
    }
}

/// Checks that no function shares an address with the one before it.
pub fn check_overlap(ordered: &LocatedFunctions) -> Result<(), MergeFault>
    ensures { result ≡ unless (shared_address_fault ordered.now) }
{
    check_heads(ordered.heads())
}
