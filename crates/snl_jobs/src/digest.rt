//! A digest of all that a job was answered: numbers and bytes go in, one number comes out.

/// The digest of what was added so far. Where one number of all is another, the digest is another.
#[derive(Clone, Copy)]
pub struct Digest {
    value: u64,
}

impl Digest {
    pub fn new() -> Digest {
        Digest {
            value: 0xcbf2_9ce4_8422_2325,
        }
    }

    pub fn value(&self) -> u64 {
        self.value
    }

    // One product for each number, since a look adds thousands of them after each key.
    pub fn add(&mut self, number: u64) {
        self.value = self
            .value
            .wrapping_mul(0x9e37_79b9_7f4a_7c15)
            .wrapping_add(number);
    }

    pub fn add_size(&mut self, number: usize) {
        self.add(number as u64);
    }

    pub fn add_flag(&mut self, flag: bool) {
        self.add(u64::from(flag));
    }

    pub fn add_bytes(&mut self, bytes: &[u8]) {
        self.add_size(bytes.len());
        let (words, rest) = bytes.as_chunks::<8>();
        for word in words {
            self.add(u64::from_le_bytes(*word));
        }
        let mut last = 0;
        for byte in rest {
            last = (last << 8) | u64::from(*byte);
        }
        self.add(last);
    }
}
