// A line's numbers as what they stand for. Every function here takes any numbers, and at a place past their end
// there is no number.
ghost use Rattle.std.specs.Prelude.{◌≡◌, ◌+◌, ◌*◌, ◌^◌, ◌<◌, ◌≤◌, length, drop, IsNone, IfSome};
ghost use Rattle.arrayvec.specs.ArrayVec.{array_vec_len};

use arrayvec::ArrayVec;

// A number that tells nothing of the kind that is asked for.
#[derive(Clone, Copy)]
pub struct Unknown;

// The number at a place as a `T`, if it is one: as a number of so many bits, say, or as a family.
pub fn number_at<T: TryFrom<i64> + Drop>(line: &[i64], at: usize) -> Option<T>
where
    T::Error: Drop,
    ensures { length line.now ≤ at → IsNone result }
{
    T::try_from(*line.get(at)?).ok()
}

// The numbers from this place on.
pub fn from(line: &[i64], at: usize) -> &[i64]
    ensures { result.now ≡ drop at line.now }
{
    line.get(at..).unwrap_or(&[])
}

// All numbers as `T`, if each is one and there is room for them. They lie in the value itself: memory is fixed, so that
// reading a list can't want for it.
pub fn all_of<T: TryFrom<i64> + Default + Drop, const ROOM: usize>(
    numbers: &[i64],
) -> Option<ArrayVec<T, ROOM>>
where
    T::Error: Drop,
    ensures { IfSome result (λ all. array_vec_len all ≡ length numbers.now) }
{
    let mut all = ArrayVec::new();
    for &number in numbers {
        all.try_push(T::try_from(number).ok()?).ok()?;
    }
    Some(all)
}

// A number of at most so many bits; the largest where it has more.
fn narrow(number: u64) -> u32
    ensures { number < 2 ^ 32 → result ≡ number }
{
    u32::try_from(number).unwrap_or(u32::MAX)
}

// HIGH · 2^32 + LOW, each with at most 32 bits.
pub fn wide(high: u64, low: u64) -> u64
    ensures { high < 2 ^ 32 → low < 2 ^ 32 → result ≡ high * 2 ^ 32 + low }
{
    u64::from(narrow(high)) * 4294967296 + u64::from(narrow(low))
}
