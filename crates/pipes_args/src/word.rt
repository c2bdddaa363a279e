// Single words.
ghost use Rattle.std.specs.Prelude.{◌≡◌, ◌≤◌, map, string_bytes, option_map, IfSome};
ghost use Rattle.std.specs.Char.{is_ascii_digit};
ghost use Rattle.std.specs.List.{list_all};
ghost use Rattle.pipes_args.specs.Words.{number_in, is_positional, one_of, two_of};

// Not empty, and without a first dash.
pub(crate) fn is_positional(word: &str) -> bool
    ensures { result ≡ is_positional word.now }
{
    match word.as_bytes() {
        [] => false,
        [first, ..] => *first != b'-',
    }
}

// The number that digits write, where it is within both bounds.
pub(crate) fn number_in(word: &str, least: u64, most: u64) -> Option<u64>
    ensures number { result ≡ number_in least most word.now }
    ensures within { IfSome result (λ n. (least ≤ n) × (n ≤ most)) }
{
    if !are_digits(word.as_bytes()) {
        return None;
    }
    let number = word.parse::<u64>().ok()?;
    if least <= number && number <= most {
        Some(number)
    } else {
        None
    }
}

fn are_digits(bytes: &[u8]) -> bool
    ensures { result ≡ list_all is_ascii_digit bytes.now }
{
    bytes.iter().all(|b| b.is_ascii_digit())
}

// A positional word, and the words after it.
pub(crate) fn one_in(words: &[String]) -> Option<(&str, &[String])>
    ensures { option_map (λ w. (w.0.now, map string_bytes w.1.now)) result
        ≡ one_of (map string_bytes words.now) }
{
    match words {
        [] => None,
        [word, rest @ ..] => {
            if is_positional(word.as_str()) {
                Some((word.as_str(), rest))
            } else {
                None
            }
        }
    }
}

// Two positional words, and the words after them.
pub(crate) fn two_in(words: &[String]) -> Option<(&str, &str, &[String])>
    ensures { option_map (λ w. (w.0.now, w.1.now, map string_bytes w.2.now)) result
        ≡ two_of (map string_bytes words.now) }
{
    let (first, others) = one_in(words)?;
    let (second, rest) = one_in(others)?;
    Some((first, second, rest))
}
