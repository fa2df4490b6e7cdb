//! Comparison of runs of octets.
ghost use Rattle.std.specs.Prelude.{◌≡◌, ◌↔◌, ◌-◌, ◌<◌, ◌≤◌, ◌==◌, ◌++◌, length, take, drop, false, IsTrue};
ghost use Rattle.dns_spec.specs.Names.{Octets};
ghost use Rattle.std.specs.List.{starts_with};
ghost use Rattle.std.specs.Int.{from_le_bytes, w16, w32, w64};

/// Whether two runs of octets are equal, octet by octet.
///
/// Names mostly have 8 to 16 octets and labels 2 to 7. Each such run is compared as two numbers,
/// made of its first and of its last octets, which may overlap.
pub fn are_equal(left: &[u8], right: &[u8]) -> bool
    ensures { IsTrue result ↔ (left.now ≡ right.now) }
{
    let count = left.len();
    if count != right.len() {
        return false;
    }
    if count < 8 || count > 16 {
        return are_others_equal(left, right);
    }
    are_eights_equal(left, right)
}

/// Whether a run of octets begins with another run.
///
/// For short runs this takes half as many instructions as `starts_with` of slices.
pub fn begins_with(octets: &[u8], front: &[u8]) -> bool
    ensures { result ≡ starts_with ◌==◌ octets.now front.now }
{
    octets.len() >= front.len() && are_equal(octets.split_at(front.len()).0, front)
}

/// Whether a run of octets ends with another run.
pub fn ends_with(octets: &[u8], end: &[u8]) -> bool
    ensures yes { IsTrue result → (length end.now ≤ length octets.now)
        × (drop (length octets.now - length end.now) octets.now ≡ end.now) }
    ensures no { result ≡ false → (front : Octets) → octets.now ≡ front ++ end.now → ⊥ }
{
    let Some(start) = octets.len().checked_sub(end.len()) else {
        return false;
    };
    are_equal(octets.split_at(start).1, end)
}

// Whether two runs of equally many octets, fewer than 8 or more than 16, are equal.
fn are_others_equal(left: &[u8], right: &[u8]) -> bool
    requires same { length right.now ≡ length left.now }
    requires others { 8 ≤ length left.now → 16 < length left.now }
    ensures { IsTrue result ↔ (left.now ≡ right.now) }
{
    let count = left.len();
    if count > 7 {
        return are_many_equal(left, right);
    }
    if count > 3 {
        let (_, left_end) = left.split_at(count - 4);
        let (_, right_end) = right.split_at(right.len() - 4);
        return first_four(left) == first_four(right)
            && first_four(left_end) == first_four(right_end);
    }
    if count > 1 {
        let (_, left_end) = left.split_at(count - 2);
        let (_, right_end) = right.split_at(right.len() - 2);
        return first_two(left) == first_two(right) && first_two(left_end) == first_two(right_end);
    }
    left.is_empty() || left[0] == right[0]
}

fn first_four(octets: &[u8]) -> u32
    requires { 4 ≤ length octets.now }
    ensures { result ≡ from_le_bytes w32 (take 4 octets.now) }
{
    u32::from_le_bytes(*front(octets))
}

// Whether two runs of equally many octets, more than 16, are equal. Compares eight octets at a
// time.
fn are_many_equal(left: &[u8], right: &[u8]) -> bool
    requires many { 16 < length left.now }
    requires same { length right.now ≡ length left.now }
    ensures { IsTrue result ↔ (left.now ≡ right.now) }
{
    let mut left_rest = left;
    let mut right_rest = right;
    'eights: while left_rest.len() > 16 {
        if first_eight(left_rest) != first_eight(right_rest) {
            return false;
        }
        left_rest = left_rest.split_at(8).1;
        right_rest = right_rest.split_at(8).1;
    }
    are_eights_equal(left_rest, right_rest)
}

// The first eight octets as a number; different octets give different numbers.
fn first_eight(octets: &[u8]) -> u64
    requires { 8 ≤ length octets.now }
    ensures { result ≡ from_le_bytes w64 (take 8 octets.now) }
{
    u64::from_le_bytes(*front(octets))
}

// Whether two runs of equally many octets, 8 to 16, are equal. Compares their first eight octets
// and their last eight, which may overlap.
fn are_eights_equal(left: &[u8], right: &[u8]) -> bool
    requires least { 8 ≤ length left.now }
    requires most { length left.now ≤ 16 }
    requires same { length right.now ≡ length left.now }
    ensures { IsTrue result ↔ (left.now ≡ right.now) }
{
    let (_, left_end) = left.split_at(left.len() - 8);
    let (_, right_end) = right.split_at(right.len() - 8);
    first_eight(left) == first_eight(right) && first_eight(left_end) == first_eight(right_end)
}

fn first_two(octets: &[u8]) -> u16
    requires { 2 ≤ length octets.now }
    ensures { result ≡ from_le_bytes w16 (take 2 octets.now) }
{
    u16::from_le_bytes(*front(octets))
}

// The first `N` octets.
fn front<const N: usize>(octets: &[u8]) -> &[u8; N]
    requires { N ≤ length octets.now }
    ensures { result.now ≡ take N octets.now }
{
    let Some(front) = octets.first_chunk() else {
        unreachable!();
    };
    front
}
