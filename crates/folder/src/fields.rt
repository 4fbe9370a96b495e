//! The fields of a frame, from left to right.
ghost use Rattle.std.specs.Prelude.{◌≡◌, IfSome, length};

/// The bytes of a frame that aren't read yet.
#[derive(Drop)]
pub(crate) struct Fields<'a> {
    left: &'a [u8],
}

impl<'a> Fields<'a> {
    pub(crate) fn of(content: &'a [u8]) -> Fields<'a> {
        Fields { left: content }
    }

    /// How many bytes aren't read yet.
    pub(crate) fn len(&self) -> usize {
        self.left.len()
    }

    /// The bytes that aren't read yet.
    pub(crate) fn into_rest(self) -> &'a [u8] {
        let Fields { left } = self;
        left
    }

    pub(crate) fn byte(&mut self) -> Option<u8> {
        let read = self.take(1)?;
        Some(read[0])
    }

    /// A number of two bytes.
    pub(crate) fn short(&mut self) -> Option<u16> {
        let read = self.take(2)?;
        Some(u16::from_le_bytes([read[0], read[1]]))
    }

    /// A number of four bytes.
    pub(crate) fn word(&mut self) -> Option<u32> {
        let read = self.take(4)?;
        Some(u32::from_le_bytes([read[0], read[1], read[2], read[3]]))
    }

    /// A number of eight bytes.
    pub(crate) fn long(&mut self) -> Option<u64> {
        let read = self.take(8)?;
        Some(u64::from_le_bytes([
            read[0], read[1], read[2], read[3], read[4], read[5], read[6], read[7],
        ]))
    }

    /// The next bytes, so many.
    pub(crate) fn take(&mut self, count: usize) -> Option<&'a [u8]>
        ensures { IfSome result (λ read. length read.now ≡ count) }
    {
        if self.left.len() < count {
            return None;
        }
        let (read, left) = self.left.split_at(count);
        self.left = left;
        Some(read)
    }
}
