// Where the texts of a job stand in a second pool: later texts first, with gaps of random width between them.
use crate::random::{drawn, low8, low16, low32, scrambled};
use model::Span;
use readings::text::text_at;

// The bytes of each pool.
pub(crate) const POOL: usize = 65536;

// A text from byte k of the first pool on ends k bytes, k widths and at most one width more before the end of the second: so none overlap.
#[derive(Clone, Copy)]
pub(crate) struct Layout {
    pub(crate) seed: u64,
    width: u16,
}

impl Layout {
    // The first pool is used up to `used`: what the second has to spare is at least as many widths and one more.
    pub(crate) fn draw(seed: u64, used: usize) -> Layout {
        if used >= POOL {
            return Layout { seed, width: 0 };
        }
        let spare = POOL - used;
        let some = drawn(seed, 1, 0) % (spare as u64 + 1);
        Layout {
            seed,
            width: low16(some / (used as u64 + 1)),
        }
    }

    // How far before the end of the second pool a text ends.
    fn room_behind(&self, at: u32) -> u64 {
        let width = u64::from(self.width);
        let more = drawn(self.seed, 2, at as usize) % (width + 1);
        let at = u64::from(at);
        (at * width).wrapping_add(at.wrapping_add(more))
    }

    // Where a text of the first pool stands in the second.
    pub(crate) fn moved(&self, span: Span) -> Span {
        let back = self.room_behind(span.at).wrapping_add(u64::from(span.len));
        match (POOL as u64).checked_sub(back) {
            Some(at) => Span {
                at: low32(at),
                len: span.len,
            },
            None => span,
        }
    }

    // Copies a text to where it stands in the second pool.
    pub(crate) fn copy_text(&self, first: &[u8], second: &mut [u8], span: Span) {
        let to = self.moved(span).at as usize;
        if let Some(room) = second.get_mut(to..) {
            for (x, b) in room.iter_mut().zip(text_at(first, span)) {
                *x = *b;
            }
        }
    }
}

// Bytes that no text has.
pub(crate) fn fill(pool: &mut [u8], seed: u64) {
    let mut x = drawn(seed, 3, 0);
    for b in pool {
        x = scrambled(x);
        *b = low8(x);
    }
}
