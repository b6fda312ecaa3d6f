//! The words of a line.

ghost use Rattle.std.specs.Prelude.{◌≡◌, ◌≤◌, length, MatchOption, [], ◌∷◌, not};
ghost use Rattle.std.specs.List.{prefix_len};
ghost use Rattle.sp_text.specs.Bytes.{is_blank, after_blanks};
ghost use Rattle.move_plan.specs.Words.{words};

// The first word of a line, and what follows it.
pub(crate) fn first_word(line: &[u8]) -> Option<(&[u8], &[u8])>
    ensures { MatchOption result (words line.now ≡ []) (λ split. words line.now ≡ split.0.now ∷ words split.1.now) }
{
    let rest = after_blanks(line);
    if rest.is_empty() {
        return None;
    }
    Some(rest.split_at(word_len(rest)))
}

// What follows the blanks.
fn after_blanks(bytes: &[u8]) -> &[u8]
    ensures { result.now ≡ after_blanks bytes.now }
{
    let (_, rest) = bytes.split_at(blanks_len(bytes));
    rest
}

// How many blanks stand first.
fn blanks_len(bytes: &[u8]) -> usize
    ensures len { result ≡ prefix_len is_blank bytes.now }
    ensures within { result ≤ length bytes.now }
{
    bytes.iter().take_while(|b| is_blank(**b)).count()
}

// How many bytes stand before the first blank.
fn word_len(bytes: &[u8]) -> usize
    ensures len { result ≡ prefix_len (λ b. not (is_blank b)) bytes.now }
    ensures within { result ≤ length bytes.now }
{
    bytes.iter().take_while(|b| !is_blank(**b)).count()
}

fn is_blank(b: u8) -> bool
    ensures { result ≡ is_blank b }
{
    b == b' ' || b == b'\t'
}
