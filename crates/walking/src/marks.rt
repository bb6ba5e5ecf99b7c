// Marks that are lent for a walk.
ghost use Rattle.std.specs.Prelude.{◌≡◌, length, replicate};

/// A mark for each fragment, all 0 at first, and 0 again when they are let go.
pub struct Marks<'m>(pub &'m mut [u8]);

impl<'m> Marks<'m> {
    /// The marks, cleared.
    pub fn clear(marks: &'m mut [u8]) -> Marks<'m>
        ensures same_reference { result.0.ghost_name ≡ marks.entry.ghost_name }
        ensures cleared { result.0.now ≡ replicate (length marks.old) 0 }
    {
        marks.fill(0);
        Marks(marks)
    }
}

impl Drop for Marks<'_> {
    fn drop(self)
        ensures { self.exit.0.now ≡ replicate (length self.entry.0.now) 0 }
    {
        self.0.fill(0);
        let Marks(_) = self;
    }
}
