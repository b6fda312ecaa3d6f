//! How many relocates live lists make together.

ghost use Rattle.std.specs.Prelude.{◌≡◌, ◌<◌, ◌^◌, length, map, sum};

use ir_ast::LiveTable;

/// How many relocates the live lists make together: the sum of their sizes.
pub fn count(live: &LiveTable) -> u64
    requires { sum (map length live.now) < 2 ^ 64 }
    ensures { result ≡ sum (map length live.now) }
{
    let mut total = 0;
    for list in live.lists() {
        total += list.len() as u64;
    }
    total
}
