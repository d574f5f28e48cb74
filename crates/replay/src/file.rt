// The file: a text of 1,024 bytes, then u32 words, the lowest byte first. Words 0 to 4: magic, version, words in all, records, where they start.
ghost use Rattle.std.specs.Prelude.{◌≡◌, length};

use crate::counts::Tally;
use crate::data::word;
use crate::records;

const TEXT: usize = 1024;

const MAGIC: u32 = 0x5245_504c;

// The version of the file's form, which numbers no kind.
const VERSION: u32 = 5;

// The word of four bytes.
fn word_of(four: &[u8]) -> u32 {
    match *four {
        [a, b, c, d] => u32::from_le_bytes([a, b, c, d]),
        _ => 0,
    }
}

// The words of the bytes, as many as there is room for: the front of the room.
fn fill<'a>(bytes: &[u8], room: &'a mut [u32]) -> &'a [u32] {
    let n = (bytes.len() / 4).min(room.len());
    let words = &mut room[..n];
    for (word, four) in words.iter_mut().zip(bytes.chunks_exact(4)) {
        *word = word_of(four);
    }
    words
}

// The words are of this form, and all there.
fn tested(words: &[u32]) -> Result<(), &'static str> {
    if word(words, 0) != MAGIC {
        return Err("not a file of this kind");
    }
    if word(words, 1) != VERSION {
        return Err("of another version");
    }
    if word(words, 2) as usize != words.len() {
        return Err("not of the length that it names");
    }
    Ok(())
}

fn records_of(words: &[u32]) {
    let mut tally = Tally::new();
    let n = word(words, 3);
    let compared = records::all(words, word(words, 4) as usize, n, &mut tally);
    match compared {
        Ok(()) => text::print(format_args!("{tally}no difference\n")),
        Err(stop) => text::print(format_args!("{stop}{tally}")),
    }
}

// Room for the words of the longest file. The `ensures` gives only the length, so that no proof looks at the zeros.
fn room() -> [u32; 294912]
    ensures { 294912 ≡ length result }
{
    [0; 294912]
}

// Runs the records of a file and writes what came of it, or answers why it is no data.
pub fn replay(bytes: &[u8]) -> Result<(), &'static str> {
    let bytes = bytes.get(TEXT..).ok_or("shorter than its text")?;
    let mut room = room();
    let words = fill(bytes, &mut room);
    tested(words)?;
    records_of(words);
    Ok(())
}
