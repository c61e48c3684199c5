//! The parts of a name, each a dot and a number.
ghost use Rattle.std.specs.Prelude.{◌≡◌, ◌++◌, ◌<◌, ◌≤◌, ◌^◌, ℕ, List, length, slice_index, true, false, Some, IfSome, IsSomeAnd};
ghost use Rattle.std.specs.Char.{is_ascii_digit};
ghost use Rattle.std.specs.Fmt.{decimal};
ghost use Rattle.std.specs.List.{flat_map, list_all, prefix_len};
ghost use Rattle.chan_base.specs.Names.{part_text};

/// How many digits the text begins with.
fn count_digits(text: &[u8]) -> usize
    ensures count { result ≡ prefix_len is_ascii_digit text.now }
    ensures within { result ≤ length text.now }
{
    let mut count = 0;
    'digits: while count < text.len() && text[count].is_ascii_digit() {
        count += 1;
    }
    count
}

fn has_zero_in_front(digits: &[u8]) -> bool
    ensures yes { result ≡ true → (1 < length digits.now) × (slice_index digits.now 0 ≡ 48) }
    ensures no { result ≡ false → slice_index digits.now 0 ≡ 48 → length digits.now ≡ 1 }
{
    digits.len() > 1 && digits[0] == b'0'
}

/// The number that the digits write, where it fits and has no zero before it.
fn number(digits: &[u8]) -> Option<u32>
    requires { list_all is_ascii_digit digits.now ≡ true }
    ensures sound { IfSome result (λ k. (digits.now ≡ decimal k) × (k < 2 ^ 32)) }
    ensures complete { (k : ℕ) → k < 2 ^ 32 → digits.now ≡ decimal k → result ≡ Some k }
{
    if has_zero_in_front(digits) {
        return None;
    }
    let text = str::from_utf8(digits).ok()?;
    text.parse::<u32>().ok()
}

/// The first part of the text, and what stands behind it.
pub(crate) fn next_part(text: &[u8]) -> Option<(u32, &[u8])>
    ensures sound { IfSome result (λ found. (text.now ≡ part_text found.0 ++ found.1.now) × (found.0 < 2 ^ 32)) }
    ensures complete { (k : ℕ) (parts : List ℕ) → k < 2 ^ 32 → text.now ≡ part_text k ++ flat_map part_text parts
        → IsSomeAnd result (λ found. (found.0 ≡ k) × (found.1.now ≡ flat_map part_text parts)) }
{
    if text.is_empty() || text[0] != b'.' {
        return None;
    }
    let rest = &text[1..];
    let count = count_digits(rest);
    let part = number(&rest[..count])?;
    Some((part, &rest[count..]))
}
