ghost use Rattle.std.specs.Prelude.{◌≡◌, ◌+◌, ◌≤◌, length};
ghost use Rattle.sheet.specs.Sheets.{word};
ghost use Rattle.sheet.specs.Sections.{Puts};

// The bytes that a sheet is written to, and the place of the item that is written next.
// The place is kept beside the bytes, because contracts speak of the whole output.
#[derive(Drop)]
pub(crate) struct Writer<'a> {
    pub(crate) out: &'a mut [u8],
    pub(crate) place: usize,
    ghost inside: { place ≤ length out.now },
}

impl<'a> Writer<'a> {
    pub(crate) fn new(out: &'a mut [u8]) -> Writer<'a>
        ensures same_reference { result.out.ghost_name ≡ out.entry.ghost_name }
        ensures out { result.out.now ≡ out.old }
        ensures place { result.place ≡ 0 }
    {
        Writer { out, place: 0 }
    }

    // Puts bytes at the place, and steps over them.
    pub(crate) fn put(&mut self, bytes: &[u8])
        requires { self.old.place + length bytes.now ≤ length self.old.out.now }
        ensures same_reference { self.new.out.ghost_name ≡ self.old.out.ghost_name }
        ensures puts { Puts bytes.now self.old.out.now self.old.place self.new.out.now self.new.place }
    {
        let end = self.place + bytes.len();
        self.out[self.place..end].copy_from_slice(bytes);
        self.place = end;
    }

    // Puts the 4 bytes of a number at the place, and steps over them.
    pub(crate) fn number(&mut self, n: u32)
        requires { self.old.place + 4 ≤ length self.old.out.now }
        ensures same_reference { self.new.out.ghost_name ≡ self.old.out.ghost_name }
        ensures steps { self.new.place ≡ self.old.place + 4 }
        ensures puts { Puts (word n) self.old.out.now self.old.place self.new.out.now self.new.place }
    {
        self.put(&n.to_be_bytes());
    }
}
