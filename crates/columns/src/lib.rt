// Columns of counts: their sums.
#![tactic(auto)]

ghost use Rattle.std.specs.Prelude.{◌≡◌, ◌≤◌, ◌<◌, ◌^◌, ◌*◌, length, sum};
ghost use Rattle.laws.specs.Sums.{total};

/// The sum of a column, which is of counts below 2^32.
pub fn sum_of(column: &[u32]) -> u64
    requires { length column.now < 2 ^ 32 }
    ensures sums { result ≡ sum column.now }
    ensures small { result ≤ length column.now * 2 ^ 32 }
{
    column.iter().map(|count| u64::from(*count)).sum()
}

/// The sum of the first n places of a column.
pub fn sum_to(column: &[u32], n: usize) -> u64
    requires room { length column.now < 2 ^ 32 }
    requires places { n ≤ length column.now }
    ensures sums { result ≡ total column.now n }
    ensures small { result ≤ n * 2 ^ 32 }
{
    sum_of(&column[..n])
}
