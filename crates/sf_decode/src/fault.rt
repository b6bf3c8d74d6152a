//! Why a section is refused.

use sf_model::{FaultName, FaultValues, Group, Shown, fault_values};

/// A refused section, with the place of what is wrong, in bytes from the section's start.
#[derive(Clone, Copy, Debug, PartialEq, Eq)]
pub enum DecodeFault {
    /// The bytes end before the header or the auxiliary header does; the place is their length.
    Short(u64),
    /// The section doesn't begin with the magic number.
    Magic(u64),
    /// The version isn't 2.
    Version(u64),
    /// An unknown flag is set.
    Flags(u64),
    /// The abi and architecture is neither AMD64 nor AArch64 little-endian.
    Abi(u64),
    /// A fixed offset isn't the machine's.
    FixedOffset(u64),
    /// A sub-section doesn't lie in the bytes, or a row in its sub-section.
    Layout(u64),
    /// The entries' numbers of rows don't add up to the header's.
    Count(u64),
    /// The width of row starts is invalid.
    RowType(u64),
    /// A bit without a meaning is set.
    Reserved(u64),
    /// A function's rows repeat after 0 bytes.
    RepeatZero(u64),
    /// A row has more or fewer offsets than the machine's rows.
    OffsetCount(u64),
    /// The width of offsets is invalid.
    OffsetSize(u64),
    /// A row doesn't start above the one before.
    RowOrder(u64),
    /// A function of a sorted section starts below the one before.
    Unsorted(u64),
    /// A function of a sorted section starts below the end of the one before.
    Overlap(u64),
    /// A function's start isn't an address, or its end is past the last address.
    AddressRange(u64),
    /// There are more than 2^21 functions.
    TooManyFunctions(u64),
    /// There are more than 2^24 rows.
    TooManyRows(u64),
}

impl Shown for DecodeFault {
    ghost use Rattle.sf_decode.specs.FaultShown.{shown_section};

    ghost shown = { shown_section };

    fn name(&self) -> FaultName {
        let (number, name) = match self {
            DecodeFault::Short(_) => (1, "Short"),
            DecodeFault::Magic(_) => (2, "Magic"),
            DecodeFault::Version(_) => (3, "Version"),
            DecodeFault::Flags(_) => (4, "Flags"),
            DecodeFault::Abi(_) => (5, "Abi"),
            DecodeFault::FixedOffset(_) => (6, "FixedOffset"),
            DecodeFault::Layout(_) => (7, "Layout"),
            DecodeFault::Count(_) => (8, "Count"),
            DecodeFault::RowType(_) => (9, "RowType"),
            DecodeFault::Reserved(_) => (10, "Reserved"),
            DecodeFault::RepeatZero(_) => (11, "RepeatZero"),
            DecodeFault::OffsetCount(_) => (12, "OffsetCount"),
            DecodeFault::OffsetSize(_) => (13, "OffsetSize"),
            DecodeFault::RowOrder(_) => (14, "RowOrder"),
            DecodeFault::Unsorted(_) => (15, "Unsorted"),
            DecodeFault::Overlap(_) => (16, "Overlap"),
            DecodeFault::AddressRange(_) => (17, "AddressRange"),
            DecodeFault::TooManyFunctions(_) => (18, "TooManyFunctions"),
            DecodeFault::TooManyRows(_) => (19, "TooManyRows"),
        };
        FaultName {
            group: Group::Section,
            number,
            name,
        }
    }

    fn values(&self) -> FaultValues {
        match self {
            DecodeFault::Short(place)
            | DecodeFault::Magic(place)
            | DecodeFault::Version(place)
            | DecodeFault::Flags(place)
            | DecodeFault::Abi(place)
            | DecodeFault::FixedOffset(place)
            | DecodeFault::Layout(place)
            | DecodeFault::Count(place)
            | DecodeFault::RowType(place)
            | DecodeFault::Reserved(place)
            | DecodeFault::RepeatZero(place)
            | DecodeFault::OffsetCount(place)
            | DecodeFault::OffsetSize(place)
            | DecodeFault::RowOrder(place)
            | DecodeFault::Unsorted(place)
            | DecodeFault::Overlap(place)
            | DecodeFault::AddressRange(place)
            | DecodeFault::TooManyFunctions(place)
            | DecodeFault::TooManyRows(place) => fault_values(&[*place]),
        }
    }
}
