// The slip itself.
ghost use Rattle.std.specs.Prelude.{◌≡◌};

/// The leave to release what a case is about: a process decided so. It cannot be copied, and it
/// ends only by `hand_over` or `put_back`: its holder cannot end before.
pub struct ReleaseSlip {
    pub(crate) process: u64,
    pub(crate) case: u64,
}

impl ReleaseSlip {
    /// The slip again, with the process and the case that it is for.
    pub fn stub(self) -> (ReleaseSlip, u64, u64)
        ensures slip { result.0 ≡ self }
        ensures process { result.1 ≡ self.process }
        ensures case { result.2 ≡ self.case }
    {
        let ReleaseSlip { process, case } = self;
        (ReleaseSlip { process, case }, process, case)
    }
}
