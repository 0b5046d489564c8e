//! What is done to a row of 256 numbers, place by place and without branches, so that eight places are reached at once.

ghost use Rattle.std.specs.Prelude.{◌≡◌, ◌<◌, ◌≤◌, ◌%◌, ◌^◌, ◌==◌, ◌&&◌, nat_le, nat_lt, if◌then◌else◌, ℕ, slice_index};

/// One of two numbers, both of which are found, so that no branch is taken. A place's numbers are chosen one by one: where they are handed on
/// together, the compiled loop packs two of them into one.
#[inline(always)]
pub fn chosen(first: bool, x: u16, y: u16) -> u16
    ensures { result ≡ (if first then x else y) }
{
    if first { x } else { y }
}

/// The same number everywhere.
pub fn fill(number: u16, into: &mut [u16; 256])
    ensures { (x : ℕ) → x < 256 → slice_index into.new x ≡ number }
{
    for x in 0..256usize {
        into[x] = number;
    }
}

/// The same number from one place on and before another.
pub fn fill_part(number: u16, first: usize, end: usize, into: &mut [u16; 256])
    requires order { first ≤ end }
    requires small { end ≤ 256 }
    ensures { (x : ℕ) → x < 256 → slice_index into.new x ≡ (if nat_le first x && nat_lt x end then number else slice_index into.old x) }
{
    for x in first..end {
        into[x] = number;
    }
}

/// A number where `marks` has a mark.
pub fn fill_where(number: u16, marks: &[u16; 256], mark: u16, into: &mut [u16; 256])
    ensures { (x : ℕ) → x < 256 → slice_index into.new x ≡ (if slice_index marks.now x == mark then number else slice_index into.old x) }
{
    for x in 0..256usize {
        into[x] = chosen(marks[x] == mark, number, into[x]);
    }
}

/// Another row where `marks` has a mark.
pub fn choose(other: &[u16; 256], marks: &[u16; 256], mark: u16, into: &mut [u16; 256])
    ensures { (x : ℕ) → x < 256
        → slice_index into.new x ≡ (if slice_index marks.now x == mark then slice_index other.now x else slice_index into.old x) }
{
    for x in 0..256usize {
        into[x] = chosen(marks[x] == mark, other[x], into[x]);
    }
}

/// The colours of pixels.
pub fn colours_of(pixels: &[u16; 256], into: &mut [u16; 256])
    ensures { (x : ℕ) → x < 256 → slice_index into.new x ≡ slice_index pixels.now x % 2 ^ 15 }
{
    for x in 0..256usize {
        into[x] = pixels[x] % 0x8000;
    }
}

/// A number that none of a row is above: the greatest of them, or 0.
pub fn most_of(row: &[u16; 256]) -> u16
    ensures { (x : ℕ) → x < 256 → slice_index row.now x ≤ result }
{
    let mut most = 0;
    for x in 0..256usize {
        most = most.max(row[x]);
    }
    most
}
