ghost use Rattle.std.specs.Prelude.{◌≤◌, length};

use arrayvec::ArrayVec;

/// A line buffer has at least so many bytes, and no line is longer.
pub const LINE_ROOM: usize = 40;

/// A line as it grows. What has no room is left out, which happens to no line.
#[derive(Drop)]
pub(crate) struct Text {
    bytes: ArrayVec<u8, LINE_ROOM>,
    ghost fits: { length bytes.items ≤ 40 },
}

impl Text {
    ghost use Rattle.std.specs.Prelude.{◌≡◌, ◌≤◌, [], ◌∷◌, length};
    ghost use Rattle.installer.specs.Figures.{digits, figure};
    ghost use Rattle.installer.specs.Texts.{text_of, grown, put_on};

    /// A word to begin with.
    pub(crate) fn of(word: &[u8]) -> Text
        requires { length word.now ≤ 40 }
        ensures { text_of result ≡ word.now }
    {
        let mut bytes = ArrayVec::new();
        bytes.try_extend_from_slice(word).unwrap();
        Text { bytes }
    }

    /// With one byte more.
    pub(crate) fn with(mut self, byte: u8) -> Text
        ensures { text_of result ≡ grown self (byte ∷ []) }
    {
        let _ = self.bytes.try_push(byte);
        self
    }

    /// With the digits of a number, of which the last `places` are written.
    fn digits(self, places: u8, n: usize) -> Text
        ensures { text_of result ≡ grown self (digits places n) }
    {
        // By hand: five places serve for every number of a line, and a line with its digits made so can be computed in a proof.
        if places == 0 {
            return self;
        }
        let front = if n < 10 {
            self
        } else {
            self.digits(places - 1, n / 10)
        };
        front.with(b'0' + (n % 10) as u8)
    }

    /// With one field more: a comma and a number.
    pub(crate) fn field(self, n: usize) -> Text
        ensures { text_of result ≡ grown self (44 ∷ figure n) }
    {
        self.with(b',').digits(5, n)
    }

    /// Puts it at the front of a buffer, and tells how long it is.
    pub(crate) fn put(&self, line: &mut [u8]) -> usize
        requires { 40 ≤ length line.old }
        ensures length { result ≡ length (text_of self.now) }
        ensures line { line.new ≡ put_on (text_of self.now) line.old }
    {
        let bytes = self.bytes.as_slice();
        line[..bytes.len()].copy_from_slice(bytes);
        bytes.len()
    }
}
