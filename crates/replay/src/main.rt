// Runs a sample of the reference's answers through the public calls, and compares: every sample, node, buffer, list, fold and refusal, and after a
// refused call every area that was lent. The file is named by the first argument; it says at its front how it was made.
#![tactic(auto)]

mod areas;
mod builds;
mod compare;
mod counts;
mod data;
mod file;
mod folds;
mod inserts;
mod kinds;
mod records;
mod runs;
mod traces;

ghost use Rattle.std.specs.Prelude.{◌≡◌, length};
ghost use Rattle.replay.specs.Lists.{Front};

use std::fs;
use std::fs::File;
use std::io::Read;
use std::rt::Env;

// Room for the file. The `ensures` gives only the length, so that no proof looks at the zeros.
fn room() -> [u8; 1179648]
    ensures { 1179648 ≡ length result }
{
    [0; 1179648]
}

// Reads until the room is full, the file ends or a read fails, and gives how many bytes stand at the start of the room.
fn read_full(file: &mut File, room: &mut [u8]) -> usize
    ensures { Front result room.new }
{
    let mut done = 0;
    // It reads until nothing comes, and counts no index.
    while done < room.len() {
        let n = file.read(&mut room[done..]).unwrap_or(0);
        if n == 0 {
            break;
        }
        done += n;
    }
    done
}

// The file of this name, where it is text and can be read.
fn opened(rt: &HostRuntime, name: &[u8]) -> Option<File> {
    let name = str::from_utf8(name).ok()?;
    fs::open(rt, name).ok()
}

// The file that the first argument names.
fn named(rt: &HostRuntime) -> Option<File> {
    let mut name = [0u8; 4096];
    let length = rt.arg(1, &mut name).unwrap_or(0);
    opened(rt, &name[..length])
}

// The room is in a function of its own, so that it is made where there is a file alone.
fn read(file: &mut File) -> Result<(), &'static str> {
    let mut bytes = room();
    let n = read_full(file, &mut bytes);
    file::replay(&bytes[..n])
}

fn replay(rt: &HostRuntime) -> Result<(), &'static str> {
    let mut file = named(rt).ok_or("no file that can be read is named")?;
    read(&mut file)
}

// The end of the program: nothing above takes what stopped it.
fn main(rt: HostRuntime) {
    if let Err(why) = replay(&rt) {
        text::print(format_args!("bad data: {why}\n"));
    }
}
