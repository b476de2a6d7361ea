//! The text of a step.
ghost use Rattle.std.specs.Prelude.{◌≡◌, ◌+◌, ◌≤◌, ◌++◌, [], length};
ghost use Rattle.pip_io.specs.declared.text.TheConstants.{TEXT_ROOM};

/// How many bytes the text of a step has at most.
const TEXT_ROOM: usize = 32768;

/// How many bytes are written at once, if they end with a piece.
const AT_ONCE: usize = 16384;

/// A text of up to 32768 bytes, put together of pieces.
#[derive(Drop)]
pub struct Text {
    bytes: [u8; TEXT_ROOM],
    len: usize,
    // Where the last piece ends that is whole in the first `AT_ONCE` bytes.
    cut: usize,
    ghost fits: { len ≤ TEXT_ROOM },
    ghost inside: { cut ≤ len },
}

impl Text {
    ghost use Rattle.pip_io.specs.Texts.{text_bytes};

    pub fn new() -> Text
        ensures { text_bytes result ≡ [] }
    {
        Text {
            bytes: [0; TEXT_ROOM],
            len: 0,
            cut: 0,
        }
    }

    /// Puts a piece at the end. There has to be room for it.
    #[inline]
    pub fn push(&mut self, piece: &[u8])
        requires { length (text_bytes self.old) + length piece.now ≤ 32768 }
        ensures { text_bytes self.new ≡ text_bytes self.old ++ piece.now }
    {
        let end = self.len + piece.len();
        self.bytes[self.len..end].copy_from_slice(piece);
        self.len = end;
        if end <= AT_ONCE {
            self.cut = end;
        }
    }

    pub fn clear(&mut self)
        ensures { text_bytes self.new ≡ [] }
    {
        self.len = 0;
        self.cut = 0;
    }

    pub fn as_slice(&self) -> &[u8]
        ensures { result.now ≡ text_bytes self.now }
    {
        &self.bytes[..self.len]
    }

    /// Its bytes in two parts: as many whole pieces as are written at once, and what comes after them.
    pub(crate) fn parts(&self) -> (&[u8], &[u8])
        ensures { result.0.now ++ result.1.now ≡ text_bytes self.now }
    {
        self.as_slice().split_at(self.cut)
    }
}
