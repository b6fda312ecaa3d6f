//! What each name has become so far: a forest, whose ways are shortened as they are gone.

ghost use Rattle.std.specs.Prelude.{◌≡◌, ℕ, slice_set};
ghost use Rattle.phi_webs.specs.Forests.{up_of, IsEnd, KeepsEnds};

/// The name one step further; one that is kept, or past the end, is its own.
pub(crate) fn up(ups: &[u32], name: u32) -> u32
    ensures { result ≡ up_of ups.now name }
{
    ups.get(name as usize).copied().unwrap_or(name)
}

/// Writes the name one step further, and nothing past the end.
pub(crate) fn put(name: u32, value: u32, ups: &mut Vec<u32>)
    ensures { ups.new.items ≡ slice_set ups.old.items name value }
{
    let place = name as usize;
    if place < ups.len() {
        ups[place] = value;
    }
}

/// What a name has become.
pub(crate) fn end_of(ups: &mut Vec<u32>, name: u32) -> u32
    ensures end { IsEnd ups.old.items name result }
    ensures keeps { KeepsEnds ups.old.items ups.new.items }
{
    let end = climbed(ups, name);
    shorten(ups, name, end);
    end
}

fn climbed(ups: &[u32], name: u32) -> u32
    ensures { IsEnd ups.now name result }
{
    let mut end = name;
    for _step in 0..u64::MAX {
        let next = up(ups, end);
        if next == end {
            return end;
        }
        end = next;
    }
    end
}

// Each name on the way is put directly below the end.
fn shorten(ups: &mut Vec<u32>, name: u32, end: u32)
    requires { IsEnd ups.old.items name end }
    ensures { KeepsEnds ups.old.items ups.new.items }
{
    let mut here = name;
    for _step in 0..u64::MAX {
        let next = up(ups, here);
        if next == here {
            return;
        }
        put(here, end, ups);
        here = next;
    }
}
