//! Small sort keys of records. These are sorted, so that each record has to be moved only once.
ghost use Rattle.std.specs.Prelude.{◌≡◌, ℕ, ◌-◌, ◌<◌, ◌≤◌, length, get_or, OnOk, IfSome};
ghost use Rattle.std.specs.declared.cmp.Ordering.TheVariants.{Less};
ghost use Rattle.std.specs.Cmp.Lexicographic.{slice_cmp};
ghost use Rattle.std.specs.List.Sorted.{IsPermutation, IsSorted};
ghost use Rattle.std.specs.Ordering.{nat_cmp, ordering_then};
ghost use Rattle.dns_zone.specs.LabelKey.{IsEight};
ghost use Rattle.dns_zone.specs.SortKeyForm.{own_order, placed, sorted_key, no_sort_key, same_sort_key, sort_key_order, AreFronts, RiseUpTo};

use crate::order::key::key_at;
use crate::order::own_order;
use crate::store::stored::StoredRecord;
use std::alloc::AllocError;
use std::cmp::Ordering;

/// The sort key of a record: the beginning of its owner's key, its index, and where its owner's key
/// begins.
#[derive(Clone, Copy)]
pub(crate) struct SortKey {
    /// The first sixteen octets of the owner's key after the origin's key, as two numbers, which
    /// differ for most owners. If the owner's key does not begin with the origin's key, both are 0,
    /// for a lower key, or both are the greatest number.
    pub(crate) front: u64,
    pub(crate) next: u64,
    /// The index of the record.
    pub(crate) at: u32,
    /// The offset among all keys at which the owner's key begins.
    pub(crate) start: u32,
}

impl SortKey {
    /// The sort key of the record at index `at`, whose owner's key is `key` and begins at `start`.
    pub(crate) fn of(origin: &[u8], key: &[u8], at: u32, start: u32) -> SortKey
        ensures fronts { AreFronts origin.now key.now result.front result.next }
        ensures at { result.at ≡ at }
        ensures start { result.start ≡ start }
    {
        let (begin, rest) = key.split_at(origin.len().min(key.len()));
        let (front, next) = match begin.cmp(origin) {
            Ordering::Less => (0, 0),
            Ordering::Equal => (
                eight_of(rest),
                eight_of(rest.split_at(8_usize.min(rest.len())).1),
            ),
            Ordering::Greater => (u64::MAX, u64::MAX),
        };
        SortKey {
            front,
            next,
            at,
            start,
        }
    }
}

// The first eight octets as a big-endian number, padded with 0.
fn eight_of(octets: &[u8]) -> u64
    ensures { IsEight result octets.now }
{
    match octets.first_chunk::<8>() {
        Some(eight) => u64::from_be_bytes(*eight),
        None => u64::from_be_bytes(padded(octets)),
    }
}

fn padded(octets: &[u8]) -> [u8; 8]
    requires { length octets.now ≤ 8 }
    ensures { (i : ℕ) → i < 8 → get_or result i 0 ≡ get_or octets.now i 0 }
{
    let mut eight = [0; 8];
    eight[..octets.len()].copy_from_slice(octets);
    eight
}

// A sort key is moved back only past fewer greater ones than this (see `keep_rising`).
const NEAR: usize = 7;

/// The canonical order of records, by their sort keys.
#[derive(Drop)]
pub(crate) struct Order<'a> {
    /// All keys.
    pub(crate) keys: &'a [u8],
    pub(crate) records: &'a [StoredRecord],
    /// Any of the records, for an index that no record has. No sort key has such an index.
    pub(crate) first: &'a StoredRecord,
}

impl<'a> Order<'a> {
    /// Sorts sort keys. The first `kept` are in order, as `keep_rising` leaves them. If at most a
    /// quarter are not, the stable sort makes use of that order.
    pub(crate) fn sort(&self, sort_keys: &mut Vec<SortKey>, kept: usize) -> Result<(), AllocError>
        requires { kept ≤ length sort_keys.old.items }
        ensures { OnOk result (IsPermutation sort_keys.old.items sort_keys.new.items × IsSorted
            (sort_key_order self.now.keys.now self.now.records.now self.now.first.now)
            sort_keys.new.items) }
    {
        if sort_keys.len() - kept > sort_keys.len() / 4 {
            sort_keys.sort_unstable_by(|one, other| self.compare(one, other));
            return Ok(());
        }
        sort_keys.sort_by(|one, other| self.compare(one, other))?;
        Ok(())
    }

    /// Moves sort keys to the front of the list so that they rise there, and returns how many these
    /// are. The others follow in any order.
    ///
    /// Most files list their names in order, with few exceptions; some list the records of a name
    /// in no order. So a sort key is put in its place at the front if at most six there are
    /// greater. If seven are greater, these seven are taken for the exceptions, and it replaces
    /// them. If more are greater, or one is equal, it stays out of the front.
    pub(crate) fn keep_rising(&self, sort_keys: &mut [SortKey]) -> usize
        ensures moved { IsPermutation sort_keys.old sort_keys.new }
        ensures count { result ≤ length sort_keys.new }
        ensures rising { RiseUpTo
            (sort_key_order self.now.keys.now self.now.records.now self.now.first.now)
            sort_keys.new result }
    {
        let mut kept = 0;
        'sort_keys: for at in 0..sort_keys.len() {
            if let Some(to) = self.index_near(sort_keys, kept, at) {
                if kept - to < NEAR {
                    sort_keys.swap(kept, at);
                    sort_keys[to..kept + 1].rotate_right(1);
                    kept += 1;
                } else {
                    sort_keys.swap(to, at);
                    kept = to + 1;
                }
            }
        }
        kept
    }

    // The index at which the sort key at `at` belongs among the first `kept`, which rise. `None` if
    // one of these is equal to it, or more than seven are greater.
    fn index_near(&self, sort_keys: &[SortKey], kept: usize, at: usize) -> Option<usize>
        requires kept { kept ≤ length sort_keys.now }
        requires at { at < length sort_keys.now }
        ensures bound { IfSome result (λ to. to ≤ kept) }
        ensures after { IfSome result (λ to. 0 < to → sort_key_order
            self.now.keys.now self.now.records.now self.now.first.now
            (get_or sort_keys.now (to - 1) no_sort_key) (get_or sort_keys.now at no_sort_key)
            ≡ Less) }
        ensures before { IfSome result (λ to. to < kept → sort_key_order
            self.now.keys.now self.now.records.now self.now.first.now
            (get_or sort_keys.now at no_sort_key) (get_or sort_keys.now to no_sort_key) ≡ Less) }
    {
        'back: for to in (0..kept).rev() {
            match self.compare(&sort_keys[to], &sort_keys[at]) {
                Ordering::Less => return Some(to + 1),
                Ordering::Equal => return None,
                Ordering::Greater => {}
            }
            // If two are greater, the eighth from the end shows whether more than seven are.
            let is_far = to + 2 == kept
                && kept > NEAR
                && self
                    .compare(&sort_keys[kept - 1 - NEAR], &sort_keys[at])
                    .is_ge();
            if is_far {
                return None;
            }
        }
        Some(0)
    }

    /// Compares two records by their sort keys. The numbers decide for most owners.
    #[inline(always)]
    pub(crate) fn compare(&self, one: &SortKey, other: &SortKey) -> Ordering
        ensures { result ≡ sort_key_order self.now.keys.now self.now.records.now self.now.first.now
            one.now other.now }
    {
        if one.front != other.front {
            return one.front.cmp(&other.front);
        }
        if one.next != other.next {
            return one.next.cmp(&other.next);
        }
        self.compare_tied(one, other)
    }

    // Compares two records whose sort keys have the same numbers. Out of line, to keep `compare`
    // short in `sort`.
    #[inline(never)]
    fn compare_tied(&self, one: &SortKey, other: &SortKey) -> Ordering
        ensures { result ≡ ordering_then (slice_cmp nat_cmp
            (sorted_key self.now.keys.now self.now.records.now self.now.first.now one.now)
            (sorted_key self.now.keys.now self.now.records.now self.now.first.now other.now))
            (own_order (placed self.now.records.now self.now.first.now one.now)
            (placed self.now.records.now self.now.first.now other.now)) }
    {
        match self.owner_order(one, other) {
            Ordering::Equal => own_order(self.record(one), self.record(other)),
            order => order,
        }
    }

    // Compares the owners of two records. Checking first for a shared key saves a twelfth of the
    // time on a file with many records of deep names.
    fn owner_order(&self, one: &SortKey, other: &SortKey) -> Ordering
        ensures { result ≡ slice_cmp nat_cmp
            (sorted_key self.now.keys.now self.now.records.now self.now.first.now one.now)
            (sorted_key self.now.keys.now self.now.records.now self.now.first.now other.now) }
    {
        let (left, right) = (self.record(one), self.record(other));
        if one.start == other.start && left.owner().octets().len() == right.owner().octets().len() {
            return Ordering::Equal;
        }
        key_at(self.keys, one.start, left).cmp(key_at(self.keys, other.start, right))
    }

    /// Whether two sort keys have the same numbers and equal records. Costs less than `compare`.
    pub(crate) fn are_same(&self, one: &SortKey, other: &SortKey) -> bool
        ensures { result ≡ same_sort_key self.now.records.now self.now.first.now one.now other.now }
    {
        one.front == other.front
            && one.next == other.next
            && self.record(one).is_same(self.record(other))
    }

    fn record(&self, sort_key: &SortKey) -> &'a StoredRecord
        ensures { result.now ≡ placed self.now.records.now self.now.first.now sort_key.now }
    {
        self.records.get(sort_key.at as usize).unwrap_or(self.first)
    }
}
