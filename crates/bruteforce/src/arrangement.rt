// The arrangements of the bytes of a list, one after another.
ghost use Rattle.std.specs.Prelude.{◌≡◌, ◌+◌, ◌<◌, ◌≤◌, IfSome, IsPermutation, MatchBool, length, slice_index};
ghost use Rattle.bruteforce.specs.Arrangements.{After};

/// Brings a list into its next arrangement in lexicographic order, and says whether there is one. That none lies between, and that
/// none comes after where it says so, is not in the contract: the number of lists shows it.
pub fn next_arrangement(list: &mut [u8]) -> bool
    ensures arranged { IsPermutation list.old list.new }
    ensures after { MatchBool result (After list.old list.new) (list.new ≡ list.old) }
{
    let Some(place) = last_rise(list) else {
        return false;
    };
    let other = last_above(list, place);
    list.swap(place, other);
    list[place + 1..].reverse();
    true
}

// The last place whose byte is below the one after it.
fn last_rise(list: &[u8]) -> Option<usize>
    ensures { IfSome result (λ i. (i + 1 < length list.now) × (slice_index list.now i < slice_index list.now (i + 1))) }
{
    for next in (1..list.len()).rev() {
        if list[next - 1] < list[next] {
            return Some(next - 1);
        }
    }
    None
}

// The last place whose byte is above that at a place, where there is one after it.
fn last_above(list: &[u8], place: usize) -> usize
    requires { (place + 1 < length list.now) × (slice_index list.now place < slice_index list.now (place + 1)) }
    ensures { (place < result) × (result < length list.now) × (slice_index list.now place < slice_index list.now result) }
{
    list.iter()
        .rposition(|&byte| byte > list[place])
        .unwrap_or(place + 1)
}
