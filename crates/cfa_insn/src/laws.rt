//! Law: the instructions of a run of bytes, by the bytes that spell them.

ghost use Rattle.std.specs.Prelude.{◌≡◌, List};
ghost use Rattle.sf_bytes.specs.Cursor.{Cursor};
ghost use Rattle.cfa_insn.specs.Listing.{Item, listing};
ghost use Rattle.cfa_insn.specs.Spelling.{AreInstructions};

/// States, by its contract alone, that what is listed of bytes are the consecutive instructions that spell them,
/// up to the end or to the first place at which there is none, with the fault that the bytes have there, and that
/// there is one such list. It does nothing.
pub fn listing_law()
    ensures found { (items : List Item) (at : Cursor) → AreInstructions items at → listing at ≡ items }
    ensures only { (at : Cursor) → AreInstructions (listing at) at }
    ensures one { (items others : List Item) (at : Cursor) → AreInstructions items at → AreInstructions others at → items ≡ others }
{}
