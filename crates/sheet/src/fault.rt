ghost use Rattle.std.specs.Prelude.{◌≡◌, [], ◌∷◌};
ghost use Rattle.sheet.specs.declared.fault.SheetFault.TheVariants.{Frame, Sums, Job};
ghost use Rattle.sheet.specs.Faults.{item_answer, fault_answer};

/// Why an item of a sheet was refused, with the place of its first byte. An item is a count, a number or one byte of the name.
#[derive(Clone, Copy, PartialEq, Eq, Debug)]
pub enum NumberFault {
    /// The bytes end before the item does.
    Cut(usize),
    /// A count other than the one that must stand there.
    Count(usize),
    /// A number or a byte outside its range.
    Value(usize),
}

impl NumberFault {
    /// The fault's number, the section and the place.
    /// They are numbers, since others know the faults by them.
    pub fn told(self, section: u32) -> (u32, u32, usize)
        ensures { item_answer section self ≡ (result.0, result.1 ∷ result.2 ∷ []) }
    {
        match self {
            NumberFault::Cut(place) => (12, section, place),
            NumberFault::Count(place) => (13, section, place),
            NumberFault::Value(place) => (14, section, place),
        }
    }
}

/// A fault in a section of a sheet.
#[derive(Clone, Copy, PartialEq, Eq, Debug)]
pub struct SectionFault<const SECTION: u32>(pub NumberFault);

/// A fault in the section of the frame.
pub type FrameFault = SectionFault<1>;

/// A fault in the section of the sums.
pub type SumsFault = SectionFault<2>;

/// A fault in the section of the job name.
pub type JobFault = SectionFault<3>;

impl<const SECTION: u32> From<NumberFault> for SectionFault<SECTION> {
    ghost from_gives = { λ e r. r.0 ≡ e };

    fn from(e: NumberFault) -> SectionFault<SECTION> {
        SectionFault(e)
    }
}

impl<const SECTION: u32> SectionFault<SECTION> {
    /// The fault's number, its section and its place.
    /// They are numbers, since others know the faults by them.
    pub fn told(self) -> (u32, u32, usize)
        ensures { item_answer SECTION self.entry.0 ≡ (result.0, result.1 ∷ result.2 ∷ []) }
    {
        self.0.told(SECTION)
    }
}

/// The first fault of a sheet, with its section.
#[derive(Clone, Copy, PartialEq, Eq, Debug)]
pub enum SheetFault {
    Frame(FrameFault),
    Sums(SumsFault),
    Job(JobFault),
}

impl From<FrameFault> for SheetFault {
    ghost from_gives = { λ e r. r ≡ Frame e };

    fn from(e: FrameFault) -> SheetFault {
        SheetFault::Frame(e)
    }
}

impl From<SumsFault> for SheetFault {
    ghost from_gives = { λ e r. r ≡ Sums e };

    fn from(e: SumsFault) -> SheetFault {
        SheetFault::Sums(e)
    }
}

impl From<JobFault> for SheetFault {
    ghost from_gives = { λ e r. r ≡ Job e };

    fn from(e: JobFault) -> SheetFault {
        SheetFault::Job(e)
    }
}

impl SheetFault {
    /// The fault's number, its section and its place.
    /// They are numbers, since others know the faults by them.
    pub fn told(self) -> (u32, u32, usize)
        ensures { fault_answer self ≡ (result.0, result.1 ∷ result.2 ∷ []) }
    {
        match self {
            SheetFault::Frame(frame) => frame.told(),
            SheetFault::Sums(sums) => sums.told(),
            SheetFault::Job(job) => job.told(),
        }
    }
}
