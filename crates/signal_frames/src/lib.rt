//! Signal frames whose callers can be found (DWARF 5, sections 6.4.2 and 2.5.1; GNU's augmentation letter `S`).
//!
//! A kernel that delivers a signal saves the interrupted registers on the stack, and has the handler return to a
//! trampoline. SFrame has no form for the trampoline's frame. Its call frame instructions say where the registers are:
//! each by an expression of the stack pointer and a constant, as in the `__restore_rt` of C libraries on AMD64.
//! [`signal_frame`] reads these constants. Its definition is `IsSignalFrame` of `specs/`: there is a [`SignalFrame`]
//! exactly where the function's rules have this form, and it is the only one. [`initial_rules`] runs the instructions of a
//! common information entry once for all functions that name it.
//!
//! The rules hold at each address of the function, since a function of which another row begins isn't of this form.
//! [`rows_have_expressions`] is a law: the rows of `cfa_machine` have these rules as expressions.
//! The caller owes nothing. Each call reads its instructions once, and nothing allocates.
#![tactic(auto)]

mod change;
mod expression;
mod frame;
mod laws;
mod rules;

pub use frame::{SignalFrame, is_signal, signal_frame};
pub use laws::rows_have_expressions;
pub use rules::{InitialRules, initial_rules};
