//! The laws of walks that go on.

ghost use Rattle.sample_walk.specs.Onward as spec;
ghost use Rattle.sample_walk.specs.PartWalk as part;

/// A walk of n + m frames is one of n frames, and then one of m frames from the state where that ends.
pub fn goes_on_from_its_state()
    ensures { spec.GoesOnFromItsState }
{}

/// A walk lists what `look_up_walk` of `sf_model` lists, and goes on where that stops at a value that can't be read, or without a
/// mask at a return address in the address space.
pub fn goes_on_past_stops()
    ensures { spec.GoesOnPastStops }
{}

/// A walk of a thread by a part of its memory lists the first frames of `look_up_walk` by the whole, as far as that goes before it
/// stops at a value that can't be read.
pub fn lists_first_frames()
    ensures { part.ListsFirstFrames }
{}
