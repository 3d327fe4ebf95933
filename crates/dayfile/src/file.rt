// A file as it is read: its bytes, and how far the reading has come.
// No Cursor: its place is a u64 that may lie past the end, which every reading of a record would have to rule out.
ghost use Rattle.std.specs.Prelude.{◌≡◌, ◌+◌, ◌≤◌, ◌==◌, length, drop};

#[derive(Clone, Copy)]
pub(crate) struct File<'a> {
    bytes: &'a [u8],
    place: usize,
    ghost within: { place ≤ length bytes.now },
}

impl<'a> File<'a> {
    // A file of which nothing is read yet.
    pub(crate) fn new(bytes: &'a [u8]) -> File<'a>
        ensures whole { result.bytes.now ≡ bytes.now }
        ensures unread { result.place ≡ 0 }
    {
        File { bytes, place: 0 }
    }

    // How many bytes are read.
    pub(crate) fn place(self) -> usize
        ensures { result ≡ self.entry.place }
    {
        self.place
    }

    // What is still to be read.
    pub(crate) fn rest(self) -> &'a [u8]
        ensures { result.now ≡ drop self.entry.place self.entry.bytes.now }
    {
        &self.bytes[self.place..]
    }

    // Whether all is read.
    pub(crate) fn is_read(self) -> bool
        ensures { result ≡ (self.entry.place == length self.entry.bytes.now) }
    {
        self.place == self.bytes.len()
    }

    // The file read so many bytes further.
    pub(crate) fn past(self, long: usize) -> File<'a>
        requires { self.place + long ≤ length self.bytes.now }
        ensures whole { result.bytes.now ≡ self.entry.bytes.now }
        ensures read { result.place ≡ self.entry.place + long }
    {
        File {
            bytes: self.bytes,
            place: self.place + long,
        }
    }
}
