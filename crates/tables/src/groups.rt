// Tables of numbers looked at flat: a loop has no way out and no branch on a number, so that several are looked at a time. Where many
// numbers are expected to pass a test, a table is looked at in groups.
ghost use Rattle.std.specs.Prelude.{◌≡◌, ◌&&◌, ◌<◌, ◌≤◌, ℕ, Bool, length, get_or};
ghost use Rattle.rules.specs.Lists.{all_to, count};
ghost use Rattle.tables.specs.Groups.{group_at, group_all};

#[derive(Clone, Copy)]
pub struct Group {}

impl Group {
    pub const SIZE: usize = 16;
}

/// Whether a whole group of n numbers starts at i.
pub fn group_at(i: usize, n: usize) -> bool
    requires { i ≤ n }
    ensures { result ≡ group_at i n }
{
    i % Group::SIZE == 0 && Group::SIZE <= n - i
}

/// Whether each number passes a test.
pub fn all_where<F: Fn(u32) -> bool>(numbers: &[u32], passes: F) -> bool
    requires { F.IsAlwaysCallable passes }
    ensures { (p : ℕ → Bool) → ((n : ℕ) (b : Bool) → F.post passes n b → b ≡ p n) → result ≡ all_to (length numbers.now) (λ i. p (get_or numbers.now i 0)) }
{
    let mut all = true;
    for number in numbers {
        all &= passes(*number);
    }
    all
}

/// How many numbers pass a test. The sum has 32 bits, as they have.
pub fn count_where<F: Fn(u32) -> bool>(numbers: &[u32], passes: F) -> usize
    requires callable { F.IsAlwaysCallable passes }
    requires few { length numbers.now ≤ 65536 }
    ensures { (p : ℕ → Bool) → ((n : ℕ) (b : Bool) → F.post passes n b → b ≡ p n) → result ≡ count p numbers.now }
{
    let mut sum = 0u32;
    for number in numbers {
        sum += u32::from(passes(*number));
    }
    sum as usize
}

/// Whether a group starts at i, and each of its numbers passes a test.
pub fn group_where<F: Fn(u32) -> bool>(numbers: &[u32], i: usize, passes: F) -> bool
    requires callable { F.IsAlwaysCallable passes }
    requires inside { i < length numbers.now }
    ensures { (p : ℕ → Bool) → ((n : ℕ) (b : Bool) → F.post passes n b → b ≡ p n) → result ≡ group_all p numbers.now i }
{
    group_at(i, numbers.len()) && all_where(&numbers[i..i + Group::SIZE], passes)
}
