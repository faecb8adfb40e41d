// Lines of text as bytes: words compared, numbers read, bytes and numbers put.
#![tactic(auto)]

ghost use Rattle.std.specs.Prelude.{◌≡◌, ◌==◌, true, false, [], ◌∷◌, ◌++◌, ◌+◌, ◌-◌, ◌≤◌, ◌<◌, length, drop, take, MatchOption};
ghost use Rattle.std.specs.List.{position_or_len};
ghost use Rattle.std.proofs.Math.Seq.{paste};
ghost use Rattle.text.specs.Bytes.{same_bytes};
ghost use Rattle.text.specs.Decimal.{decimal_of};
ghost use Rattle.text.specs.Fields.{fields_of, fields_after, first_of, is_digit_of, max_number, numbers_of, numbers_in, how_many};

// The largest number that a field spells.
pub const MAX_NUMBER: u64 = 4294967295;

// It is that of the definitions.
pub fn limits()
    ensures { MAX_NUMBER ≡ max_number }
{}

// Whether two words are the same.
pub fn is_word(s: &[u8], w: &[u8]) -> bool
    ensures { result ≡ same_bytes s.now w.now }
{
    s == w
}

// How many bytes of a line stand before the first that is the given one; all, where none is.
pub fn bytes_before(line: &[u8], byte: u8) -> usize
    ensures { result ≡ position_or_len (λ b. b == byte) line.now }
{
    line.iter().position(|b| *b == byte).unwrap_or(line.len())
}

// How long a line's first field is.
pub fn first_field(line: &[u8]) -> usize
    ensures { (result ≤ length line.now) × (fields_of line.now
        ≡ take result line.now ∷ fields_after result line.now) }
{
    bytes_before(line, b' ')
}

// What one of `0` to `9` is worth.
fn digit(b: u8) -> Option<u64>
    ensures { MatchOption result (is_digit_of b ≡ false)
        (λ d. (is_digit_of b ≡ true) × (d ≡ b - 48) × (d ≤ 9)) }
{
    match b {
        b'0'..=b'9' => Some(u64::from(b - b'0')),
        _ => None,
    }
}

// The numbers of a line's fields from index at on, to the front of out, and how many they are. Of
// the field under way, number is what its digits so far are worth.
pub fn numbers(line: &[u8], at: usize, out: &mut [u32]) -> Option<usize>
    requires { (at ≤ length line.now) × (length line.now < length out.old) }
    ensures out_after { numbers_in result out.new
        ≡ numbers_of (fields_of (drop at line.now)) }
    ensures result_in_bounds { how_many result ≤ length out.new }
{
    let mut k = 0;
    let mut number: Option<u64> = None;
    for b in &line[at..] {
        if *b == b' ' {
            out[k] = number? as u32;
            k += 1;
            number = None;
        } else {
            let next = number.unwrap_or(0) * 10 + digit(*b)?;
            if MAX_NUMBER < next {
                return None;
            }
            number = Some(next);
        }
    }
    out[k] = number? as u32;
    Some(k + 1)
}

// Puts bytes after the first at bytes of out, and answers how many there are then. Those behind
// them stay.
pub fn put_bytes(out: &mut [u8], at: usize, bytes: &[u8]) -> usize
    requires { at + length bytes.now ≤ length out.old }
    ensures { (result ≡ at + length bytes.now)
        × (take result out.new ≡ take at out.old ++ bytes.now)
        × (out.new ≡ paste out.old at bytes.now (length bytes.now)) }
{
    // By copy_from_slice the library would need memmove.
    for i in 0..bytes.len() {
        out[at + i] = bytes[i];
    }
    at + bytes.len()
}

// Puts a line's first field after the first at bytes of out.
pub fn put_first(out: &mut [u8], at: usize, line: &[u8]) -> usize
    requires { at + length line.now ≤ length out.old }
    ensures { (result ≤ at + length line.now)
        × (take result out.new
        ≡ take at out.old ++ first_of line.now) }
{
    let n = first_field(line);
    put_bytes(out, at, &line[0..n])
}

// Puts one byte after the first at bytes of out.
pub fn put_byte(out: &mut [u8], at: usize, byte: u8) -> usize
    requires { at < length out.old }
    ensures { (result ≡ at + 1)
        × (take result out.new ≡ take at out.old ++ (byte ∷ [])) }
{
    out[at] = byte;
    at + 1
}

// Puts a number in decimal after the first at bytes of out.
pub fn put_number(out: &mut [u8], at: usize, n: u32) -> usize
    requires { at + length (decimal_of n) ≤ length out.old }
    ensures { (result ≡ at + length (decimal_of n))
        × (take result out.new ≡ take at out.old ++ decimal_of n) }
{
    if n < 10 {
        put_byte(out, at, b'0' + n as u8)
    } else {
        let end = put_number(out, at, n / 10);
        put_byte(out, end, b'0' + (n % 10) as u8)
    }
}
