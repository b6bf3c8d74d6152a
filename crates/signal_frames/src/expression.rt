//! The two expressions that a signal frame's rules have (DWARF 5, sections 2.5.1.2, 2.5.1.3 and 7.7.1).

ghost use Rattle.std.specs.Prelude.{◌≡◌, ℤ, List, [], ◌∷◌, ℕ, Some, IfSome, IsSomeAnd, IsTrue};
ghost use Rattle.signal_frames.specs.Expression.{BeginsAtStack, DW_OP_deref, IsStackAddress, IsStackValue};

use sf_bytes::Part;

/// `DW_OP_breg7`: the value of register 7, on AMD64 the stack pointer, plus a constant.
const DW_OP_BREG7: u8 = 0x77;

/// `DW_OP_deref`: the value at the address on top of the stack.
const DW_OP_DEREF: u8 = 0x06;

// Reads `DW_OP_breg7` at the front, and returns its constant and what follows. Returns `None` if it isn't there.
fn stack_pointer_plus<'a>(expression: &'a [u8]) -> Option<(i64, &'a [u8])>
    ensures found { IfSome result (λ x. BeginsAtStack expression.now x.0 x.1.now) }
    ensures only { (constant : ℤ) (rest : List ℕ) → BeginsAtStack expression.now constant rest → IsSomeAnd result (λ x. (x.0 ≡ constant) × (x.1.now ≡ rest)) }
{
    let (opcode, operand) = expression.split_first()?;
    if *opcode != DW_OP_BREG7 {
        return None;
    }
    let mut part = Part::new(operand, 0);
    match part.sleb() {
        Ok(constant) => Some((constant, part.bytes)),
        Err(_) => None,
    }
}

/// Returns the constant of an expression that gives the stack pointer plus a constant.
pub fn stack_address(expression: &[u8]) -> Option<i64>
    ensures found { IfSome result (λ constant. IsStackAddress expression.now constant) }
    ensures only { (constant : ℤ) → IsStackAddress expression.now constant → result ≡ Some constant }
{
    let (constant, rest) = stack_pointer_plus(expression)?;
    if rest.is_empty() {
        Some(constant)
    } else {
        None
    }
}

// Returns whether `DW_OP_deref` is all that follows.
fn is_dereferenced(rest: &[u8]) -> bool
    ensures found { IsTrue result → rest.now ≡ DW_OP_deref ∷ [] }
    ensures only { rest.now ≡ DW_OP_deref ∷ [] → IsTrue result }
{
    rest.len() == 1 && rest[0] == DW_OP_DEREF
}

/// Returns the constant of an expression that gives what is saved at the stack pointer plus a constant.
pub fn stack_value(expression: &[u8]) -> Option<i64>
    ensures found { IfSome result (λ constant. IsStackValue expression.now constant) }
    ensures only { (constant : ℤ) → IsStackValue expression.now constant → result ≡ Some constant }
{
    let (constant, rest) = stack_pointer_plus(expression)?;
    if is_dereferenced(rest) {
        Some(constant)
    } else {
        None
    }
}
