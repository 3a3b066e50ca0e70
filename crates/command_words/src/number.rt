//! Numbers in words.

ghost use Rattle.std.specs.Prelude.{◌≡◌, option_map};
ghost use Rattle.std.specs.Char.{is_ascii_digit};
ghost use Rattle.std.specs.List.{list_all};
ghost use Rattle.command_words.specs.Numbers.{is_number, number_of, steps_of};

/// How many steps a thread may take where the words don't say.
const STEPS: u32 = 5_000_000;

/// How many it may take at most.
const MOST_STEPS: u32 = 50_000_000;

fn are_digits(bytes: &[u8]) -> bool
    ensures { result ≡ list_all is_ascii_digit bytes.now }
{
    bytes.iter().all(|byte| byte.is_ascii_digit())
}

/// Whether a word is one to nine decimal digits.
fn is_number(text: &str) -> bool
    ensures { result ≡ is_number text.now }
{
    1 <= text.len() && text.len() <= 9 && are_digits(text.as_bytes())
}

/// The number that one to nine decimal digits write.
fn number(text: &str) -> Option<u32>
    ensures { result ≡ number_of text.now }
{
    if !is_number(text) {
        return None;
    }
    Some(text.parse::<u32>().unwrap())
}

/// How many steps a thread may take; `None` where the words don't say it right.
pub(crate) fn steps(text: Option<&str>) -> Option<u32>
    ensures { result ≡ steps_of (option_map (λ s. s.now) text.entry) }
{
    let Some(text) = text else {
        return Some(STEPS);
    };
    let count = number(text)?;
    if count == 0 || count > MOST_STEPS {
        return None;
    }
    Some(count)
}
