//! A row as one word: its first number, and behind it the others, each as a digit of so many bits.

ghost use Rattle.std.specs.Prelude.{
  ◌≡◌,
  ℕ,
  ◌-◌,
  ◌*◌,
  ◌^◌,
  ◌<◌,
  ◌≤◌,
  length,
  true,
  false,
  IfSome,
};
ghost use Rattle.graph_nodes.specs.Packing.{with_digits, wrapped, packed, unpacked};

/// The numbers that half a word can hold.
const HALF: u64 = 1 << 32;

/// Two to the power of so many bits.
fn base_of(bits: u32) -> u64
    requires { bits < 64 }
    ensures { result ≡ 2 ^ bits }
{
    1 << bits
}

/// The word with one more digit behind it, of which the first bits may be lost.
fn with_digit(bits: u32, word: u64, digit: u32) -> u64
    requires { bits ≤ 32 }
    ensures { result ≡ wrapped bits word digit }
{
    word.wrapping_mul(base_of(bits))
        .wrapping_add(u64::from(digit))
}

/// Whether a word has room for so many bits behind it.
fn has_room(word: u64, bits: usize) -> bool
    requires { bits ≤ 64 }
    ensures room { result ≡ true → word < 2 ^ (64 - bits) }
    ensures none { result ≡ false → 2 ^ (64 - bits) ≤ word }
{
    if bits == 0 {
        return true;
    }
    word < base_of(64 - bits as u32)
}

/// The word with these digits behind it, if they all fit.
fn with_digits(bits: u32, first: u64, digits: &[u32]) -> Option<u64>
    requires some { 0 < bits }
    requires few { bits ≤ 32 }
    requires room { length digits.now * bits ≤ 64 }
    ensures { result ≡ with_digits bits first digits.now }
{
    let mut word = first;
    let mut largest = 0u32;
    for digit in digits {
        word = with_digit(bits, word, *digit);
        largest = largest.max(*digit);
    }
    let base = base_of(bits);
    if u64::from(largest) >= base {
        return None;
    }
    if !has_room(first, digits.len() * bits as usize) {
        return None;
    }
    Some(word)
}

/// The word of a row, if it fits.
pub fn pack(bits: u32, row: &[u32]) -> Option<u64>
    requires some { 0 < bits }
    requires few { bits ≤ 32 }
    requires room { (length row.now - 1) * bits ≤ 64 }
    ensures word { result ≡ packed bits row.now }
    ensures back { IfSome result (λ word. unpacked bits (length row.now - 1) word ≡ row.now) }
{
    let (first, digits) = row.split_first()?;
    with_digits(bits, u64::from(*first), digits)
}

/// Writes the row of a word.
pub fn unpack(bits: u32, word: u64, row: &mut [u32])
    requires some { 0 < bits }
    requires few { bits ≤ 32 }
    requires room { 0 < length row.old }
    ensures row { row.new ≡ unpacked bits (length row.old - 1) word }
    ensures same_room { length row.new ≡ length row.old }
{
    let mut rest = word;
    let mut place = row.len() - 1;
    while place > 0 {
        row[place] = (rest % base_of(bits)) as u32;
        rest = rest / base_of(bits);
        place -= 1;
    }
    row[0] = (rest % HALF) as u32;
}
