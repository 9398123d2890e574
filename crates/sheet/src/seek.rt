// A line sought among the lines of a group by its first numbers. The lines ascend by them, so that half of those left are passed over at each look.
ghost use Rattle.std.specs.Prelude.{◌≡◌, ◌+◌, ◌≤◌, ◌<◌, ℕ, List, length, take, drop};
ghost use Rattle.sheet.specs.Computed.{lexb};
ghost use Rattle.sheet.specs.Seek.{Parted, Tells, key_in, Seekable, Listed};
ghost use Rattle.sheet.specs.Laws.Seek.{Ascends};
ghost use Rattle.sheet.specs.Laws.Decided.{Decided};

// The lines of a group in the array of all groups: where they begin, the count of numbers of each, how many there are, and by how many first numbers
// they are sought.
#[derive(Clone, Copy)]
pub struct Group {
    pub base: usize,
    pub width: usize,
    pub count: usize,
    pub key: usize,
}

impl Group {
    // The first numbers of line i, by which it is sought.
    fn key_at(self, all: &[u32], i: usize) -> &[u32]
        requires { Seekable all.now self × (i < self.count) }
        ensures { result.now ≡ key_in all.now self i }
    {
        let from = self.base + i * self.width;
        &all[from..from + self.key]
    }
}

// Whether the n numbers of a from `at` on stand before the first n of b.
fn is_before(a: &[u32], at: usize, b: [u32; 8], n: usize) -> bool
    requires { (n ≤ 8) × (at + n ≤ length a.now) }
    ensures { result ≡ lexb (take n (drop at a.now)) (take n b) }
{
    // Stays: by position, since with `<` of slices, or a `zip` of them, a sheet with closures is read slower by a tenth.
    for i in 0..n {
        if a[at + i] < b[i] {
            return true;
        }
        if b[i] < a[at + i] {
            return false;
        }
    }
    false
}

// How many of n things in order come before some key, where `is_before` tells of each whether it does.
pub fn partition_point<F: Fn(usize) -> bool>(n: usize, is_before: F) -> usize
    requires { (k : ℕ) → k < n → F.pre is_before k }
    ensures { (at : ℕ → List ℕ) (a : List ℕ) → Tells (F.post is_before) n at a → Ascends n at → Parted n at a result result }
{
    let mut low = 0;
    let mut high = n;
    // Stays: a `while`, since the looks end where low and high meet; std's `partition_point` asks for the things in a slice.
    while low < high {
        let k = low + (high - low) / 2;
        if is_before(k) {
            low = k + 1;
        } else {
            high = k;
        }
    }
    low
}

// How many lines of the group come before v.
fn lines_before(all: &[u32], g: Group, v: [u32; 8]) -> usize
    requires { Seekable all.now g }
    ensures { Parted g.count (key_in all.now g) (take g.key v) result result }
{
    partition_point(g.count, |i| is_before(all, g.base + i * g.width, v, g.key))
}

// Whether a line of the group has the first numbers of v. The time grows with the logarithm of the count of lines.
pub fn holds(all: &[u32], g: Group, v: [u32; 8]) -> bool
    requires { Seekable all.now g }
    ensures { Decided (Listed all.now g v) result }
{
    let i = lines_before(all, g, v);
    i < g.count && g.key_at(all, i) == &v[..g.key]
}
