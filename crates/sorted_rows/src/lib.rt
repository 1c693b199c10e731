// Rows of numbers in ascending order, each once, in one lent array.
#![tactic(auto)]

ghost use Rattle.std.specs.Prelude.{◌+◌, ◌-◌, ◌*◌, ◌≤◌, not, ◌&&◌, ◌++◌, ◌≡◌, ltb, length, take, drop};
ghost use Rattle.lists.specs.Ascending.{less};
ghost use Rattle.sorted_rows.specs.Sorted.{rows};
ghost use Rattle.sorted_rows.specs.Places.{put_at, PlacedAt, Puts};

// The places of one row at most, the rows kept at most, and the places of these.
pub const ROW: usize = 40;

pub const MOST: usize = 64;

pub const PLACES: usize = ROW * MOST;

// Whether `a` comes before `b`.
fn comes_before(a: &[u16], b: &[u16]) -> bool
    ensures { result ≡ less a.now b.now }
{
    for k in 0..a.len() {
        if b.len() <= k {
            return false;
        }
        if a[k] != b[k] {
            return a[k] < b[k];
        }
    }
    a.len() < b.len()
}

// Whether the first `width` values come after the previous ones.
pub fn above(previous: &[u16], value: &[u16], width: usize) -> bool
    requires { width ≤ length value.now }
    ensures { result ≡ less previous.now (take width value.now) }
{
    comes_before(previous, &value[..width])
}

// Copies the first `len` places to the front of the buffer.
pub fn copy_rows(kept: &[u16], len: usize, out: &mut [u16])
    requires { (len ≤ length kept.now) × (len ≤ length out.old) }
    ensures { out.new ≡ take len kept.now ++ drop len out.old }
{
    out[..len].copy_from_slice(&kept[..len]);
}

// How many of the n rows come before the value, if they ascend: looked for by halves.
fn place(kept: &[u16], n: usize, width: usize, value: &[u16]) -> usize
    requires { width * n ≤ length kept.now }
    ensures { (result ≤ n) × PlacedAt value.now (rows width n kept.now) result }
{
    let mut low: usize = 0;
    let mut high = n;
    while low < high {
        let middle = low + (high - low) / 2;
        let start = width * middle;
        if comes_before(&kept[start..start + width], value) {
            low = middle + 1;
            continue;
        }
        high = middle;
    }
    low
}

// Whether there is a row `at` among the n, and it doesn't come after the value.
fn stands_at(kept: &[u16], n: usize, width: usize, at: usize, value: &[u16]) -> bool
    requires { width * n ≤ length kept.now }
    ensures { result ≡ (ltb at n && not (less value.now (take width (drop (width * at) kept.now)))) }
{
    if n <= at {
        return false;
    }
    let start = width * at;
    !comes_before(value, &kept[start..start + width])
}

// Puts the value in before row `at`; the rows from there to `last` move back by one.
fn put(kept: &mut [u16], at: usize, last: usize, width: usize, value: &[u16])
    requires { (at ≤ last) × (width * (last + 1) ≤ length kept.old) × (width ≤ length value.now) }
    ensures { rows width (last + 1) kept.new ≡
        put_at at (take width value.now) (rows width last kept.old) }
{
    let start = width * at;
    kept.copy_within(start..width * last, start + width);
    kept[start..start + width].copy_from_slice(&value[..width]);
}

// Puts the first `width` values in among the n rows, which ascend, unless they are one of these; a row that there is no room for
// is dropped.
pub fn insert(kept: &mut [u16], n: usize, room: usize, width: usize, value: &[u16]) -> usize
    requires { (n ≤ room) × (width * room ≤ length kept.old) × (width ≤ length value.now) }
    ensures puts { Puts room (take width value.now) (rows width n kept.old)
        (rows width result kept.new) }
    ensures upper_bound { (result ≤ room) × (length kept.new ≡ length kept.old) }
{
    let row = &value[..width];
    let at = place(&*kept, n, width, row);
    if at == room {
        return n;
    }
    if stands_at(&*kept, n, width, at, row) {
        return n;
    }
    if n < room {
        put(kept, at, n, width, value);
        return n + 1;
    }
    put(kept, at, n - 1, width, value);
    n
}
