//! Laws over the definitions: functions that do nothing, for their contracts.

ghost use Rattle.std.specs.Prelude.{◌≡◌, ℕ, List, Result, Ok};
ghost use Rattle.sf_model.specs.declared.function.Func.{Func as func_fact};
ghost use Rattle.sf_model.specs.Section.{AreBytes};
ghost use Rattle.sf_model.specs.Table.{Table};
ghost use Rattle.sf_decode.specs.Decoding.{section_check, table_in};
ghost use Rattle.sf3_upgrade.specs.declared.fault.UpgradeFault.{UpgradeFault as upgrade_fault};
ghost use Rattle.sf3_upgrade.specs.Answers.{IsUpgraded};
ghost use Rattle.sf3_upgrade.specs.Upgrading.{Upgrades};

/// States that upgrading a section has at most one result, and one section with its counts.
pub fn upgrading_comes_to_one_result()
    ensures result { (bytes : List ℕ) (table : Table) (one other : Result (List func_fact) upgrade_fault) → Upgrades bytes table one → Upgrades bytes table other → one ≡ other }
    ensures section { (bytes : List ℕ) (table : Table) (at : ℕ) (one other : List ℕ) (n m k l : ℕ) → IsUpgraded bytes table at one n m → IsUpgraded bytes table at other k l → one ≡ other }
{}

/// States that a section that was checked and has no fault of upgrading has an upgraded section.
pub fn what_can_be_upgraded_has_a_section()
    ensures { (bytes : List ℕ) (from at : ℕ) (functions : List func_fact) → AreBytes bytes → section_check bytes from ≡ Ok tt → Upgrades bytes (table_in bytes from) (Ok functions) → (section : List ℕ) × (count : ℕ) × (rows : ℕ) × IsUpgraded bytes (table_in bytes from) at section count rows }
{}
