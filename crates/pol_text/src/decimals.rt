ghost use Rattle.std.specs.Prelude.{◌≡◌, ◌<◌, ◌≤◌, ◌++◌, ◌-◌, false, true, length, take, map, slice_index_or, OnOk, OnErr};
ghost use Rattle.pol_outside.specs.Faults.{Rose};
ghost use Rattle.std.specs.Prelude.{codes, decimal, OnOk, OnErr};
ghost use Rattle.std.specs.List.{list_all};
ghost use Rattle.pol_base.specs.Tuples.{cell_of};
ghost use Rattle.pol_text.specs.Lines.{number_of, is_digit};
ghost use Rattle.pol_text.specs.Texts.{spaced, PutsIn};

use crate::Text;
use itoa::Buffer;

pub(crate) const MOST_DIGITS: usize = 9;

/// The number that the token writes: 1 to 9 decimal digits, where leading zeros are allowed.
/// None for every other token.
pub fn number(token: &[u8]) -> Option<u32>
    ensures number { result ≡ number_of token.now }
{
    let (value, length) = leading_number(token);
    if length == 0 || length > MOST_DIGITS || length < token.len() {
        return None;
    }
    Some(value)
}

/// The number that the digits at the front write, where these are at most nine, and how many they are.
pub(crate) fn leading_number(bytes: &[u8]) -> (u32, usize)
    ensures within { result.1 ≤ length bytes.now }
    ensures digits { list_all is_digit (take result.1 bytes.now) ≡ true }
    ensures value { result.1 ≤ 9 → result.0 ≡ cell_of 10 (map (λ b. b - 48) (take result.1 bytes.now)) }
    ensures most { result.1 < length bytes.now → is_digit (slice_index_or bytes.now result.1 0) ≡ false }
{
    let mut value = 0u32;
    let mut length = 0;
    for byte in bytes {
        if !byte.is_ascii_digit() {
            break;
        }
        value = value.wrapping_mul(10).wrapping_add(u32::from(*byte - b'0'));
        length += 1;
    }
    (value, length)
}

/// Appends the decimal digits of the number. Where the text takes no more, a front of them is appended.
pub fn put_number<T: Text>(out: &mut T, n: u64) -> Result<(), T::Fault>
    ensures puts { PutsIn result (T.bytes out.old) (T.bytes out.new) (decimal n) }
    ensures place { T.place out.new ≡ T.place out.old }
    ensures sent { T.sent out.old ≤ T.sent out.new }
    ensures calm { OnOk result (T.faults out.new ≡ T.faults out.old) }
    ensures fault { OnErr result (Rose (T.faults out.old) (T.faults out.new)) }
{
    let mut buffer = Buffer::new();
    out.append(buffer.format(n).as_bytes())
}

/// Appends a space and the number. Where the text takes no more, a front of them is appended.
pub fn put_spaced<T: Text>(out: &mut T, n: u64) -> Result<(), T::Fault>
    ensures puts { PutsIn result (T.bytes out.old) (T.bytes out.new) (codes " " ++ decimal n) }
    ensures place { T.place out.new ≡ T.place out.old }
    ensures sent { T.sent out.old ≤ T.sent out.new }
    ensures calm { OnOk result (T.faults out.new ≡ T.faults out.old) }
    ensures fault { OnErr result (Rose (T.faults out.old) (T.faults out.new)) }
{
    out.append(b" ")?;
    put_number(out, n)
}

/// Appends the values, each behind a space. Where the text takes no more, a front of them is appended.
pub fn put_values<T: Text>(out: &mut T, values: &[u8]) -> Result<(), T::Fault>
    ensures puts { PutsIn result (T.bytes out.old) (T.bytes out.new) (spaced values.now) }
    ensures place { T.place out.new ≡ T.place out.old }
    ensures sent { T.sent out.old ≤ T.sent out.new }
    ensures calm { OnOk result (T.faults out.new ≡ T.faults out.old) }
    ensures fault { OnErr result (Rose (T.faults out.old) (T.faults out.new)) }
{
    for value in values {
        put_spaced(out, u64::from(*value))?;
    }
    Ok(())
}

/// Appends the numbers, each behind a space. Where the text takes no more, a front of them is appended.
pub fn put_numbers<T: Text>(out: &mut T, numbers: &[u32]) -> Result<(), T::Fault>
    ensures puts { PutsIn result (T.bytes out.old) (T.bytes out.new) (spaced numbers.now) }
    ensures place { T.place out.new ≡ T.place out.old }
    ensures sent { T.sent out.old ≤ T.sent out.new }
    ensures calm { OnOk result (T.faults out.new ≡ T.faults out.old) }
    ensures fault { OnErr result (Rose (T.faults out.old) (T.faults out.new)) }
{
    for number in numbers {
        put_spaced(out, u64::from(*number))?;
    }
    Ok(())
}
