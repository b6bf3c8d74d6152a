// Numbers as words on a command line.
ghost use Rattle.std.specs.Prelude.{◌≡◌, ◌≤◌, ℕ, IfSome, Some, length};
ghost use Rattle.std.specs.Option.{option_map};
ghost use Rattle.sf_base.specs.Word.{SpellsHexadecimal, SpellsDecimal, character_digit, text_digits, spelled, hexadecimal, decimal_number};

/// Reads a hexadecimal word such as `0x3000`: `0x` and 1 to 16 lower-case hexadecimal digits. Returns
/// `None` for every other text.
pub fn hex_word(text: &str) -> Option<u64>
    ensures found { IfSome result (λ number. SpellsHexadecimal text.now number) }
    ensures only { (number : ℕ) → SpellsHexadecimal text.now number → result ≡ Some number }
{
    read_hexadecimal(text.as_bytes())
}

/// Reads a decimal word below 2^32, without sign and without leading zeros, such as `0` or `64`. Returns
/// `None` for every other text.
pub fn dec_word(text: &str) -> Option<u32>
    ensures found { IfSome result (λ number. SpellsDecimal text.now number) }
    ensures only { (number : ℕ) → SpellsDecimal text.now number → result ≡ Some number }
{
    read_decimal(text.as_bytes())
}

#[tactic(auto, unfolding(crate::specs::Word::hexadecimal))]
fn read_hexadecimal(text: &[u8]) -> Option<u64>
    ensures { result ≡ hexadecimal text.now }
{
    if text.len() < 3 || text.len() > 18 {
        return None;
    }
    if text[0] != b'0' || text[1] != b'x' {
        return None;
    }
    read_number(&text[2..], 16)
}

#[tactic(auto, unfolding(crate::specs::Word::decimal_number))]
fn read_decimal(text: &[u8]) -> Option<u32>
    ensures { result ≡ decimal_number text.now }
{
    // The greatest number has ten digits.
    if text.is_empty() || text.len() > 10 {
        return None;
    }
    if text[0] == b'0' && text.len() > 1 {
        return None;
    }
    let number = read_number(text, 10)?;
    if number > u32::MAX as u64 {
        return None;
    }
    Some(number as u32)
}

// Returns the number that the text spells in digits below the base, if each of its characters is one.
fn read_number(text: &[u8], base: u64) -> Option<u64>
    requires base { base ≤ 16 }
    requires short { length text.now ≤ 16 }
    ensures { result ≡ option_map (spelled base) (text_digits base text.now) }
{
    let mut number: u64 = 0;
    for byte in text {
        let digit = read_digit(*byte)?;
        if digit >= base {
            return None;
        }
        number = number * base + digit;
    }
    Some(number)
}

fn read_digit(byte: u8) -> Option<u64>
    ensures { result ≡ character_digit byte }
{
    match byte {
        b'0'..=b'9' => Some((byte - b'0') as u64),
        b'a'..=b'f' => Some((byte - b'a') as u64 + 10),
        _ => None,
    }
}
