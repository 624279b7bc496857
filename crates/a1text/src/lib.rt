// The bytes that a typed reference is made of. The grammar of references is in specs/.
#![tactic(auto)]

ghost use Rattle.std.specs.Prelude.{◌≡◌, ◌-◌};
ghost use Rattle.a1text.specs.Bytes.{is_letter, is_word_byte, is_printable, raised};

#[tactic(auto, unfolding(crate::specs::Bytes::is_letter, crate::specs::Bytes::is_capital, crate::specs::Bytes::is_small))]
pub fn is_letter(b: u8) -> bool
    ensures { result ≡ is_letter b }
{
    b.is_ascii_alphabetic()
}

// A letter, a digit or an underscore.
#[tactic(auto, unfolding(crate::specs::Bytes::is_word_byte, crate::specs::Bytes::is_letter, crate::specs::Bytes::is_capital, crate::specs::Bytes::is_small, crate::specs::Bytes::is_digit))]
pub fn is_word_byte(b: u8) -> bool
    ensures { result ≡ is_word_byte b }
{
    b.is_ascii_alphanumeric() || b == b'_'
}

// No ASCII control byte.
#[tactic(auto, unfolding(crate::specs::Bytes::is_printable))]
pub fn is_printable(b: u8) -> bool
    ensures { result ≡ is_printable b }
{
    !b.is_ascii_control()
}

// The number of a letter in either case, from 1 on; of another byte what is left above 64.
#[tactic(auto, unfolding(crate::specs::Bytes::raised, crate::specs::Bytes::is_small))]
pub fn letter_number(b: u8) -> u64
    ensures { result ≡ raised b - 64 }
{
    u64::from(b.to_ascii_uppercase().saturating_sub(64))
}
