// Bytes of the area by their places.
ghost use Rattle.std.specs.Prelude.{◌≡◌, ◌*◌, ◌/◌, length, nat_le};
ghost use Rattle.buffers.specs.Buffers.{any_below, records, locked_between};
ghost use Rattle.outlook.specs.Places.{byte_at, place_after};

use super::View;

impl View<'_> {
    // The byte at a place; past the area it is 0.
    pub(super) fn byte_at(&self, place: u16) -> u8
        ensures { result ≡ byte_at self.now.area.now place }
    {
        self.area
            .get(usize::from(place / 6))
            .map_or(0, |word| ((word >> (8 * (5 - place % 6))) % 256) as u8)
    }

    // Whether one of some bytes from a place on is outside the area.
    pub(super) fn is_outside(&self, place: u16, bytes: u8) -> bool
        ensures { result ≡ any_below bytes (λ k. nat_le (6 * length self.now.area.now) (place_after place k)) }
    {
        let size = self.area.len();
        if size > 10922 || bytes == 0 {
            return false;
        }
        let end = usize::from(place) + usize::from(bytes);
        6 * size < end.min(65536)
    }

    // Whether the slot's buffers lock a word that holds one of some bytes from a place on.
    pub(super) fn holds_lock(&self, place: u16, bytes: u8) -> bool
        ensures { result ≡ any_below bytes (λ k. locked_between self.now.slot (records self.now.buffers.now.table) (place_after place k / 6) (place_after place k / 6)) }
    {
        (0..bytes).any(|k| {
            let word = place.wrapping_add(u16::from(k)) / 6;
            self.buffers.locked(self.slot, word, word)
        })
    }
}
