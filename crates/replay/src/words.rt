// The numbers of a text, one after the other; words between them are passed over.
use std::str::SplitWhitespace;

/// The numbers that are still to be read.
#[derive(Drop)]
pub struct Words<'a> {
    rest: SplitWhitespace<'a>,
    // The next word that begins with a digit.
    ahead: Option<&'a str>,
    // The last word before it that does not.
    keyword: &'a str,
    taken: u64,
}

impl<'a> Words<'a> {
    /// All numbers of the text.
    pub fn new(text: &'a str) -> Words<'a> {
        let mut words = Words {
            rest: text.split_whitespace(),
            ahead: None,
            keyword: "",
            taken: 0,
        };
        words.advance();
        words
    }

    // Goes on to the next word that begins with a digit.
    fn advance(&mut self) {
        self.ahead = None;
        for word in self.rest.by_ref() {
            if word.starts_with(|c: char| c.is_ascii_digit()) {
                self.ahead = Some(word);
                return;
            }
            self.keyword = word;
        }
    }

    /// Whether no number is left.
    pub fn is_at_end(&self) -> bool {
        self.ahead.is_none()
    }

    /// Whether this is the last word before the next number.
    pub fn comes_after(&self, keyword: &str) -> bool {
        self.keyword == keyword
    }

    /// How many numbers were asked for up to here.
    pub fn taken(&self) -> u64 {
        self.taken
    }

    // The next number, if there is one that fits 32 bits.
    fn number(&mut self) -> Option<u32> {
        self.taken = self.taken.wrapping_add(1);
        let word = self.ahead?;
        self.advance();
        word.parse::<u32>().ok()
    }

    /// The next numbers, if there are so many.
    pub fn numbers<const N: usize>(&mut self) -> Option<[u32; N]> {
        let mut all = [0; N];
        for place in all.iter_mut() {
            *place = self.number()?;
        }
        Some(all)
    }
}
