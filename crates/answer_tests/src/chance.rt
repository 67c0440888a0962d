//! Numbers by chance, from a seed.

/// A generator of the xorshift kind (Marsaglia, Journal of Statistical Software, 2003).
#[derive(Drop)]
pub(crate) struct Chance {
    state: u64,
}

impl Chance {
    /// The seeds 1, 2, 3 and so on lead to quite different numbers.
    pub(crate) fn new(seed: u64) -> Chance {
        let mut chance = Chance {
            state: seed.wrapping_mul(0x9E37_79B9_7F4A_7C15) | 1,
        };
        for _ in 0..8 {
            let _ = chance.next();
        }
        chance
    }

    fn next(&mut self) -> u64 {
        self.state ^= self.state << 13;
        self.state ^= self.state >> 7;
        self.state ^= self.state << 17;
        self.state
    }

    /// A number below `count`, or 0 where this is 0.
    pub(crate) fn below(&mut self, count: usize) -> usize {
        let number = (self.next() >> 11) as usize;
        if count == 0 { 0 } else { number % count }
    }

    /// One of the words.
    pub(crate) fn word(&mut self, words: &[&'static str]) -> &'static str {
        match words.get(self.below(words.len())) {
            Some(word) => *word,
            None => "",
        }
    }
}
