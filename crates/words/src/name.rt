// The names of facts and of actions.
ghost use Rattle.std.specs.Prelude.{◌≡◌, ◌||◌};
ghost use Rattle.words.specs.Words.{digit, is_name, letter, letters_digits};

// The most bytes of a name.
const MAX_NAME: usize = 16;

// Whether a byte is one of a to z or of 0 to 9.
fn is_letter_or_digit(byte: u8) -> bool
    ensures { result ≡ (letter byte || digit byte) }
{
    byte.is_ascii_lowercase() || byte.is_ascii_digit()
}

// Whether all bytes are letters and digits.
fn are_letters_digits(bytes: &[u8]) -> bool
    ensures { result ≡ letters_digits bytes.now }
{
    bytes.iter().all(|b| is_letter_or_digit(*b))
}

// Whether a word is a name: 1 to 16 letters and digits, a letter first.
pub fn is_name(word: &[u8]) -> bool
    ensures { result ≡ is_name word.now }
{
    word.split_first().is_some_and(|(first, rest)| {
        first.is_ascii_lowercase() && are_letters_digits(rest) && rest.len() < MAX_NAME
    })
}
