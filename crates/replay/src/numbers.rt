// The numbers of a line, in its order: each is one that its field can hold, or there is none.
use u256::U256;

// What is left of the line; None behind its last number. By std's `split` of a `&str` at a `char`, and `parse`, a case takes half as
// many instructions again.
#[derive(Drop)]
pub(crate) struct Numbers<'a> {
    rest: Option<&'a [u8]>,
}

fn is_space(byte: &u8) -> bool {
    *byte == b' '
}

impl<'a> Numbers<'a> {
    // Parted by one space each.
    pub(crate) fn of(line: &'a [u8]) -> Self {
        Self { rest: Some(line) }
    }

    fn next(&mut self) -> Option<&'a [u8]> {
        let rest = self.rest?;
        let part = rest.split(is_space).next()?;
        self.rest = rest.get(part.len() + 1..);
        Some(part)
    }

    pub(crate) fn read<N: TryFrom<u64, Error: Drop>>(&mut self) -> Option<N> {
        let number = text::read_u64(self.next()?)?;
        N::try_from(number).ok()
    }

    pub(crate) fn read_bit(&mut self) -> Option<bool> {
        match self.read::<u8>()? {
            0 => Some(false),
            1 => Some(true),
            _ => None,
        }
    }

    // The lowest 64 bits first.
    pub(crate) fn read_word(&mut self) -> Option<U256> {
        Some(U256 {
            w0: self.read()?,
            w1: self.read()?,
            w2: self.read()?,
            w3: self.read()?,
        })
    }

    // Whether the line has no more.
    pub(crate) fn is_over(&self) -> bool {
        self.rest.is_none()
    }
}
