// A file that passed its check, with the places of its tables.
ghost use Rattle.tzif.specs.File.{IsChecked};

use super::file::Places;
use super::octets::{offset_at, time_at};

// It is made by `check` alone: its places are those that the check gives.
#[derive(Clone, Copy)]
pub struct Zone<'a> {
    pub file: &'a [u8],
    pub places: Places,
    ghost checked: { IsChecked file.now places },
}

impl Zone<'_> {
    ghost use Rattle.std.specs.Prelude.{◌≡◌, ◌≤◌, ◌<◌};
    ghost use Rattle.tzif.specs.File.{time_at, offset_behind};

    // Transition i.
    pub fn transition_at(self, i: usize) -> u64
        requires { i < self.places.count }
        ensures { (result ≡ time_at self.entry.file.now self.entry.places.times i) × (result < 9223372290225540608) }
    {
        time_at(self.file, self.places.times, i)
    }

    // The offset behind k transitions: that of type 0, or of the last one's type.
    pub fn offset_behind(self, k: usize) -> u64
        requires { k ≤ self.places.count }
        ensures { (result ≡ offset_behind self.entry.file.now self.entry.places k) × (0 < result) × (result < 183600) }
    {
        if k == 0 {
            return offset_at(self.file, self.places.types, 0);
        }
        let index = self.file[self.places.indexes + (k - 1)];
        offset_at(self.file, self.places.types, index as usize)
    }
}
