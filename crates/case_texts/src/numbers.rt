//! Numbers by which texts are made, always the same ones.

/// The factor of the linear congruential generator of Knuth's MMIX, modulo 2^64.
const MULTIPLIER: u64 = 6_364_136_223_846_793_005;

/// What that generator adds.
const INCREMENT: u64 = 1_442_695_040_888_963_407;

/// The numbers that a text is made of, one after the other.
#[derive(Drop)]
pub struct Numbers {
    last: u64,
}

impl Numbers {
    /// Those of a text, by its own number.
    pub fn of(text: u64) -> Numbers {
        let mut numbers = Numbers { last: text };
        numbers.next();
        numbers.next();
        numbers
    }

    /// The next one, of 31 bits.
    pub fn next(&mut self) -> u64 {
        let next = self.last.wrapping_mul(MULTIPLIER).wrapping_add(INCREMENT);
        self.last = next;
        next >> 33
    }
}

/// Puts another byte at a place of a text.
pub fn spoil(text: &mut [u8], place: u64, byte: u64) {
    let len = text.len() as u64;
    if len > 0 {
        let place = (place % len) as usize;
        if let Some(at) = text.get_mut(place) {
            *at = (byte % 256) as u8;
        }
    }
}
