//! Numbers of a width in bits, wrapped and with their sign.

ghost use Rattle.std.specs.Prelude.{◌≡◌, ◌+◌, ◌^◌, ◌≤◌};
ghost use Rattle.sp_ids.specs.Numbers.{wrapped, signed};

/// `n` modulo 2^`width`: the value of an `i<width>` (LLVM Language Reference, "Integer Type").
pub fn wrap(width: u32, n: u64) -> u64
    requires some_bits { 1 ≤ width }
    requires word { width ≤ 64 }
    ensures { result ≡ wrapped width n }
{
    n & ones(width)
}

/// The signed number that the low `width` bits of `n` spell in two's complement.
pub fn sign(width: u32, n: u64) -> i64
    requires some_bits { 1 ≤ width }
    requires word { width ≤ 64 }
    ensures { result ≡ signed width n }
{
    let low = wrap(width, n);
    let below_ones = ones(width) - low;
    if low <= below_ones {
        low as i64
    } else {
        -1 - below_ones as i64
    }
}

// The word whose low `width` bits are set.
fn ones(width: u32) -> u64
    requires some_bits { 1 ≤ width }
    requires word { width ≤ 64 }
    ensures { result + 1 ≡ 2 ^ width }
{
    let highest = 1u64 << (width - 1);
    highest - 1 + highest
}
