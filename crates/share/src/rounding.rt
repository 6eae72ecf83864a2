// Rounding a share to whole millionths.
ghost use Rattle.std.specs.Prelude.{◌≡◌, ◌^◌, ◌≤◌};
ghost use Rattle.share.specs.Rounding.{share_of};

// A count in millionths of a total, to the nearest, a half upward; 0 of the total 0.
fn rounded(count: u32, total: u64) -> u64
    requires { total ≤ 2 ^ 48 }
    ensures { result ≡ share_of count total }
{
    if total == 0 {
        return 0;
    }
    (2 * (1_000_000 * count as u64) + total) / (2 * total)
}

// The same of a count that is part of the total, and so at most a million.
pub(super) fn millionths(count: u32, total: u64) -> u32
    requires { total ≤ 2 ^ 48 }
    ensures share { count ≤ total → result ≡ share_of count total }
    ensures most { result ≤ 1000000 }
{
    rounded(count, total).min(1_000_000) as u32
}
