// Reads one scene on standard input and writes the lines of it, at once.
#![tactic(auto)]

ghost use Rattle.std.specs.Prelude.{◌≤◌, length};

use lines::{MOST_BYTES, MOST_SCENE_BYTES};
use std::io::{Read, Write};

// Reads until the room is full, the input ends or a read fails: how many bytes stand at its front.
fn read_full(from: &mut impl Read, room: &mut [u8]) -> usize
    ensures { result ≤ length room.new }
{
    let mut got = 0;
    // By no range: a turn reads as many bytes as come.
    while got < room.len() {
        match from.read(&mut room[got..]) {
            Ok(0) | Err(_) => break,
            Ok(n) => got += n,
        }
    }
    got
}

// An output that is closed or full gets as many bytes as it takes, and no complaint.
fn main(rt: HostRuntime) {
    let mut scene = [0u8; MOST_SCENE_BYTES + 1];
    let got = read_full(&mut rt.stdin(), &mut scene);
    let mut out = [0u8; MOST_BYTES];
    let written = lines::lines_of(&scene[..got], &mut out) as usize;
    let _ = rt.stdout().write_all(&out[..written]);
}
