//! Bits in a list of words.
ghost use Rattle.std.specs.Prelude.{◌≡◌, ◌≢◌, ℕ, ◌/◌, ◌^◌, nat_eq, ◌<◌, ◌≤◌, ◌*◌, true, false, length, slice_index};
ghost use Rattle.mesh_bins.specs.Marks.{MayMark, PutsMarked};
ghost use Rattle.mesh_bins.specs.Words.{has, bit, IsLeast, IsMarked, PutsBit};

/// The number of bits of a word.
pub(crate) const WORD_BITS: u32 = 64;

/// Whether the words have bit `n`.
pub(crate) fn has_bit(words: &[u64], n: u32) -> bool
    requires { n < 64 * length words.now }
    ensures { result ≡ has words.now n }
{
    (words[(n / WORD_BITS) as usize] >> (n % WORD_BITS)) & 1 == 1
}

/// Sets bit `n` of the words.
pub(crate) fn set_bit(words: &mut [u64], n: u32)
    requires { n < 64 * length words.old }
    ensures puts { PutsBit words.old words.new n true }
    ensures others { (j : ℕ) → j ≢ n / 64 → slice_index words.new j ≡ slice_index words.old j }
    ensures long { length words.new ≡ length words.old }
{
    let at = (n / WORD_BITS) as usize;
    words[at] |= 1 << (n % WORD_BITS);
}

/// Clears bit `n` of the words.
pub(crate) fn clear_bit(words: &mut [u64], n: u32)
    requires { n < 64 * length words.old }
    ensures puts { PutsBit words.old words.new n false }
    ensures fits { (j : ℕ) → slice_index words.new j < 2 ^ 64 }
    ensures others { (j : ℕ) → j ≢ n / 64 → slice_index words.new j ≡ slice_index words.old j }
    ensures long { length words.new ≡ length words.old }
{
    let at = (n / WORD_BITS) as usize;
    words[at] &= !(1 << (n % WORD_BITS));
}

/// Sets bit `n` of the words. Sets also the bit of `marks` that says that the word with bit `n` isn't zero.
pub(crate) fn mark(words: &mut [u64], marks: &mut [u64], n: u32)
    requires { MayMark words.old marks.old n }
    ensures { PutsMarked words.old marks.old words.new marks.new n true }
{
    set_bit(words, n);
    set_bit(marks, n / WORD_BITS);
}

/// Clears bit `n` of the words. If the word with bit `n` is then zero, clears also that word's bit of `marks`.
pub(crate) fn unmark(words: &mut [u64], marks: &mut [u64], n: u32)
    requires { MayMark words.old marks.old n }
    ensures { PutsMarked words.old marks.old words.new marks.new n false }
{
    clear_bit(words, n);
    if is_zero(words, n / WORD_BITS) {
        clear_bit(marks, n / WORD_BITS);
    }
}

/// Whether the word at a place is zero.
pub(crate) fn is_zero(words: &[u64], place: u32) -> bool
    requires { place < length words.now }
    ensures { result ≡ nat_eq (slice_index words.now place) 0 }
{
    words[place as usize] == 0
}

/// Returns the number of the lowest set bit of a word, among its bits from `from` on. Returns `None` if none of them is
/// set.
pub(crate) fn least_in(word: u64, from: u32) -> Option<u32>
    requires { from < 64 }
    ensures { IsLeast (bit word) from 64 result }
{
    let rest = word >> from;
    if rest == 0 {
        return None;
    }
    Some(from + rest.trailing_zeros())
}

/// Returns the number of the lowest set bit of the list, among its bits from `from` on. Returns `None` if none of them
/// is set.
pub(crate) fn least_of(words: &[u64], from: u32) -> Option<u32>
    requires { 64 * length words.now ≤ 65536 }
    ensures { IsLeast (has words.now) from (64 * length words.now) result }
{
    let mut low = from % WORD_BITS;
    for place in from / WORD_BITS..words.len() as u32 {
        if let Some(bit) = least_in(words[place as usize], low) {
            return Some(place * WORD_BITS + bit);
        }
        low = 0;
    }
    None
}

/// Returns the number of the lowest set bit of the list, among its bits from `from` on. Returns `None` if none of them
/// is set. Bit `j` of `marks` must be set if and only if word `j` isn't zero, so words of zeros are skipped.
pub(crate) fn least_marked(words: &[u64], marks: &[u64], from: u32) -> Option<u32>
    requires few { 64 * length marks.now ≤ 65536 }
    requires long { length words.now ≤ 64 * length marks.now }
    requires marked { IsMarked words.now marks.now }
    ensures { IsLeast (has words.now) from (64 * length words.now) result }
{
    let place = from / WORD_BITS;
    let word = *words.get(place as usize)?;
    if let Some(bit) = least_in(word, from % WORD_BITS) {
        return Some(place * WORD_BITS + bit);
    }
    let next = least_of(marks, place + 1)?;
    let bit = least_in(words[next as usize], 0)?;
    Some(next * WORD_BITS + bit)
}
