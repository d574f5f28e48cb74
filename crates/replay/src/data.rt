// The words of the file, and what a record's words stand for. Reading past the end gives 0: `records.rt` has tested a record's length before.
//
// A record: its kind, its length in words, the number and the place of the refusal (0 and 0: accepted), how many areas it names, for each area its
// start and its length in the words of the file, then the numbers of its kind. An f64 or a count is two words, the lower one first.
use crate::areas::{LONGEST, Loaded};
use builder_calls::PlanBuilder;
use comparison::floats;
use plan::{Plan, Span};

// Where the areas of a record start.
const AREAS: usize = 5;

pub fn word(words: &[u32], i: usize) -> u32 {
    words.get(i).copied().unwrap_or(0)
}

// Words i and i + 1 as one number.
fn long(words: &[u32], i: u8) -> u64 {
    let low = word(words, i as usize);
    let high = word(words, i as usize + 1);
    (u64::from(high) << 32) | u64::from(low)
}

fn size(words: &[u32], i: u8) -> usize {
    long(words, i) as usize
}

// The f64 of words i and i + 1.
pub fn double(words: &[u32], i: u8) -> f64 {
    floats::double_of(long(words, i))
}

// The words from `start` on, `len` at most. The file names a part by these two numbers.
fn part(words: &[u32], start: usize, len: usize) -> &[u32] {
    let rest = words.get(start..).unwrap_or(&[]);
    rest.get(..len).unwrap_or(rest)
}

// An area lies in a file of n words, and fits.
fn area_whole(n: usize, start: u32, len: u32) -> bool {
    (start as usize + len as usize <= n) & (len as usize <= LONGEST)
}

// A record of the file.
#[derive(Clone, Copy)]
pub struct Record<'a> {
    file: &'a [u32],
    words: &'a [u32],
}

impl<'a> Record<'a> {
    // The record that starts at a word of the file.
    pub fn at(file: &'a [u32], start: usize) -> Record<'a> {
        let len = word(file, start.wrapping_add(1));
        Record {
            file,
            words: part(file, start, len as usize),
        }
    }

    pub fn len(self) -> usize {
        self.words.len()
    }

    pub fn word(self, i: u8) -> u32 {
        word(self.words, i as usize)
    }

    pub fn long(self, i: u8) -> u64 {
        long(self.words, i)
    }

    pub fn size(self, i: u8) -> usize {
        size(self.words, i)
    }

    pub fn double(self, i: u8) -> f64 {
        double(self.words, i)
    }

    // The span of words i and i + 1.
    pub fn span(self, i: u8) -> Span {
        Span {
            start: self.word(i),
            len: word(self.words, i as usize + 1),
        }
    }

    // The starts and lengths of the areas.
    fn areas(self) -> &'a [u32] {
        part(self.words, AREAS, 2 * (self.word(4) as usize))
    }

    // The record has so many areas and numbers, and its areas lie in the file.
    pub fn fits(self, areas: u32, numbers: u32) -> bool {
        let n = self.file.len();
        let all = || self
            .areas()
            .chunks_exact(2)
            .all(|area| area_whole(n, word(area, 0), word(area, 1)));
        self.word(4) == areas
            && self.len() == AREAS + 2 * (areas as usize) + numbers as usize
            && all()
    }

    // The numbers, behind the areas.
    pub fn numbers(self) -> &'a [u32] {
        part(self.words, AREAS + 2 * (self.word(4) as usize), self.len())
    }

    // Area i.
    pub fn area(self, i: u8) -> &'a [u32] {
        let at = AREAS + 2 * (i as usize);
        let start = word(self.words, at);
        let len = word(self.words, at + 1);
        part(self.file, start as usize, len as usize)
    }

    // Area i, as it is lent to a call: the front of the room. An entry is made of its word, so that this is no copy.
    pub fn lend<'r, T: Loaded>(self, i: u8, room: &'r mut [T]) -> &'r mut [T] {
        let words = self.area(i);
        let n = words.len().min(room.len());
        let lent = &mut room[..n];
        for (entry, &word) in lent.iter_mut().zip(words) {
            *entry = T::of_word(word);
        }
        lent
    }

    // The plan's record that is area i: seven counts.
    pub fn plan(self, i: u8) -> Plan {
        let words = self.area(i);
        Plan {
            block: size(words, 0),
            buffers: size(words, 2),
            indices: size(words, 4),
            coefficients: size(words, 6),
            nodes: size(words, 8),
            steps: size(words, 10),
            words: size(words, 12),
        }
    }

    // The builder with the plan that is area i, for a call that is compared.
    pub fn builder(self, i: u8) -> PlanBuilder {
        PlanBuilder { plan: self.plan(i) }
    }
}
