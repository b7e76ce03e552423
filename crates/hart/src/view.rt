//! What is shown of a machine at one moment.

ghost use Rattle.std.specs.Prelude.{◌≡◌, ◌<◌, length, slice_index_or};
ghost use Rattle.cheri_model.specs.runs.Machine.{no_hart};
ghost use Rattle.cheri_model.specs.steps.Memory.{granule_at};

use crate::hart::Hart;
use cap_ops::Cap;
use cheri_model::{Event, Image};
use tagged_mem::Ram;

/// What is shown of a machine at one moment: the image that it started from, the events of its
/// trace, its harts, and its memory, of which granule k has the 16 bytes from 0x8000_0000 + 16 * k
/// on.
#[derive(Clone, Copy)]
pub struct View<'a> {
    pub image: &'a Image,
    pub entries: &'a [Event],
    pub harts: &'a [Hart],
    pub ram: &'a Ram,
}

/// The hart with this number.
pub fn hart_in(harts: &[Hart], number: usize) -> &Hart
    requires { number < length harts.now }
    ensures { result.now ≡ slice_index_or harts.now number no_hart }
{
    &harts[number]
}

impl View<'_> {
    /// The number of granules.
    pub fn granule_count(self) -> usize
        ensures { result ≡ length self.entry.ram.now }
    {
        self.ram.granule_count()
    }

    /// The value of a granule, by its number from 0 on.
    pub fn granule(self, number: usize) -> Cap
        requires { number < length self.ram.now }
        ensures { result ≡ granule_at self.entry.ram.now number }
    {
        self.ram.granule(number)
    }
}
