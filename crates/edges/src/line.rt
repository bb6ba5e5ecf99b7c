// A line of the text: what is asked for, how often, with which words, and the answer that is told.
use crate::answer::Fault;

/// A line `KEYWORD [xTIMES] WORDS [=> ANSWER]`. Where no answer is told, it is `done`.
#[derive(Clone, Copy)]
pub struct Line<'a> {
    pub keyword: &'a str,
    pub times: u32,
    pub words: &'a str,
    pub told: &'a str,
}

impl<'a> Line<'a> {
    /// The line that the text says, or none where it is empty or a comment.
    pub fn read(text: &'a str) -> Result<Option<Line<'a>>, Fault> {
        let text = text.trim();
        if text.is_empty() || text.starts_with('#') {
            return Ok(None);
        }
        let (asked, told) = text.split_once("=>").unwrap_or((text, "done"));
        let (keyword, words) = cut(asked);
        let (word, rest) = cut(words);
        let (times, words) = match word.strip_prefix('x') {
            Some(count) => (number(count)?, rest),
            None => (1, words),
        };
        Ok(Some(Line {
            keyword,
            times,
            words,
            told: told.trim(),
        }))
    }

    /// The words as numbers, where there are so many.
    pub fn numbers<const N: usize>(&self) -> Result<[u32; N], Fault> {
        let mut rest = self.words;
        let mut all = [0; N];
        for place in all.iter_mut() {
            let (word, after) = cut(rest);
            *place = number(word)?;
            rest = after;
        }
        Ok(all)
    }
}

/// The first word, and the text behind it.
pub fn cut(text: &str) -> (&str, &str) {
    let text = text.trim();
    let (word, rest) = text.split_once(' ').unwrap_or((text, ""));
    (word, rest.trim())
}

/// A count as a number of the text.
pub fn number_of(count: usize) -> u32 {
    u32::try_from(count).unwrap_or(u32::MAX)
}

/// The place that is written in digits, of 64 bits.
pub fn place(word: &str) -> Result<usize, Fault> {
    match word.parse::<usize>() {
        Ok(place) => Ok(place),
        Err(_) => Err(Fault::BadLine),
    }
}

/// The number that is written in digits.
pub fn number(word: &str) -> Result<u32, Fault> {
    match word.parse::<u32>() {
        Ok(number) => Ok(number),
        Err(_) => Err(Fault::BadLine),
    }
}

/// The number that `START`, `START+STEP` or `START+STEP/EVERY` comes to in this turn: the step is added in every turn, or
/// in each so manieth. `A|B|..` are such numbers by turns, each of which counts its own.
pub fn number_at(text: &str, turn: u32) -> Result<u32, Fault> {
    let count = number_of(text.split('|').count());
    let round = turn.checked_div(count).ok_or(Fault::BadLine)?;
    let place = turn.checked_rem(count).ok_or(Fault::BadLine)? as usize;
    stepped(text.split('|').nth(place).ok_or(Fault::BadLine)?, round)
}

// One of these numbers.
fn stepped(text: &str, turn: u32) -> Result<u32, Fault> {
    let (start, step) = text.split_once('+').unwrap_or((text, "0"));
    let (step, every) = step.split_once('/').unwrap_or((step, "1"));
    let turns = turn.checked_div(number(every)?).ok_or(Fault::BadLine)?;
    let added = number(step)?.wrapping_mul(turns);
    Ok(number(start)?.wrapping_add(added))
}

/// Whether all of these are the same as one.
pub fn all_are<T: Copy + PartialEq>(items: &[T], one: T) -> bool {
    for item in items {
        if *item != one {
            return false;
        }
    }
    true
}

/// These numbers, with those in their places that the words give by name, as `kind=1 end=1+1`.
pub fn members<const N: usize>(
    words: &str,
    names: &[&'static str],
    numbers: [u32; N],
    turn: u32,
) -> Result<[u32; N], Fault> {
    let mut all = numbers;
    for word in words.split_whitespace() {
        let (name, text) = word.split_once('=').ok_or(Fault::BadLine)?;
        let mut is_known = false;
        for (known, place) in names.iter().zip(all.iter_mut()) {
            if *known == name {
                *place = number_at(text, turn)?;
                is_known = true;
            }
        }
        if !is_known {
            return Err(Fault::BadLine);
        }
    }
    Ok(all)
}
