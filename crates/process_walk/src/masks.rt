//! Threads without a mask of their return addresses.

ghost use Rattle.std.specs.Prelude.{◌≡◌};
ghost use Rattle.process_walk.specs.Masks as spec;

use core_notes::Thread;
use core_walk::step::Caller;
use sample_walk::in_address_space;
use sf_model::Stop;

// Returns whether a thread has no mask.
fn has_no_mask(thread: &Thread) -> bool
    ensures { result ≡ spec.has_no_mask thread.now }
{
    thread.mask.is_none()
}

/// Returns whether no thread has a mask.
pub fn are_unmasked(threads: &[Thread]) -> bool
    ensures { result ≡ spec.are_unmasked threads.now }
{
    threads.iter().all(|thread| has_no_mask(thread))
}

/// Returns whether a step stops at a return address in the address space, though no thread has a mask.
pub fn stops_unsigned(is_unmasked: bool, next: &Result<Caller, Stop>) -> bool
    ensures { result ≡ spec.stops_unsigned is_unmasked next.now }
{
    match next {
        Ok(_) => false,
        Err(Stop::Depth) => false,
        Err(Stop::Outside(_)) => false,
        Err(Stop::Unreadable(_)) => false,
        Err(Stop::Signed(address)) => is_unmasked && in_address_space(*address).is_some(),
    }
}
