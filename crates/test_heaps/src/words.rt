//! The words of a line.

/// What is left of a line.
#[derive(Clone, Copy)]
pub(crate) struct Words<'a> {
    rest: &'a [u8],
}

impl<'a> Words<'a> {
    pub(crate) fn of(rest: &'a [u8]) -> Words<'a> {
        Words { rest }
    }

    // The next word; nothing, where none is left.
    pub(crate) fn word(&mut self) -> &'a [u8] {
        let rest = self.rest.trim_ascii();
        match cut(rest, b' ') {
            Some((word, behind)) => {
                self.rest = behind;
                word
            }
            None => {
                self.rest = &[];
                rest
            }
        }
    }

    // The next word as a number, or 0.
    pub(crate) fn number(&mut self) -> u64 {
        let word = self.word();
        let mut number = 0u64;
        for byte in word {
            let digit = byte.wrapping_sub(b'0');
            number = number.wrapping_mul(10).wrapping_add(u64::from(digit));
        }
        number
    }

    pub(crate) fn is_empty(&self) -> bool {
        self.rest.trim_ascii().is_empty()
    }
}

// What stands before and behind the first of these bytes.
fn cut(bytes: &[u8], mark: u8) -> Option<(&[u8], &[u8])> {
    let end = bytes.iter().position(|b| *b == mark)?;
    let (front, back) = bytes.split_at(end);
    let (_, rest) = back.split_first()?;
    Some((front, rest))
}
