// Replays a list of packed sheets: each line has a sheet's bytes and what is printed of it. Every
// sheet is drawn as the program `sheet` draws it, and what is printed is compared.
#![tactic(auto)]

use report::sheet_text;
use std::alloc::{AllocError, Global};
use std::{env, fs};
use text::{lines, split_word};

// The value of a hexadecimal digit. Capitals are none, as a list writes none; `to_digit` takes them.
fn digit_of(byte: u8) -> Option<u8> {
    match byte {
        b'0'..=b'9' => Some(byte - b'0'),
        b'a'..=b'f' => Some(byte - b'a' + 10),
        _ => None,
    }
}

// The byte that two digits write. Any other character counts as 16: each line makes a file, and what
// is printed of that file decides.
fn byte_of(pair: &[u8]) -> u8 {
    pair.iter().fold(0, |byte, digit| {
        let value = digit_of(*digit).unwrap_or(16);
        byte.wrapping_mul(16).wrapping_add(value)
    })
}

// The bytes that pairs of digits write, and so many zero bytes after them. A last digit without a
// second is left out, and so is the word `-`.
fn bytes_of(heap: Global, digits: &[u8], zeros: usize) -> Result<Vec<u8>, AllocError> {
    let mut bytes: Vec<u8> = digits.chunks_exact(2).map(byte_of).collect(heap)?;
    bytes.resize(bytes.len().saturating_add(zeros), 0)?;
    Ok(bytes)
}

// Whether a line of the list is answered as it says: the digits of the sheet, the number of zero
// bytes after them, and the words that are printed.
fn agrees(heap: Global, line: &str) -> Result<bool, AllocError> {
    let (digits, after) = split_word(line);
    let (count, answer) = split_word(after);
    let Ok(zeros) = count.parse::<usize>() else {
        return Ok(false);
    };
    let bytes = bytes_of(heap, digits.as_bytes(), zeros)?;
    let text = sheet_text(heap, bytes.as_slice())?;
    Ok(
        text.as_str()
            .split_whitespace()
            .eq(answer.split_whitespace()),
    )
}

// Replays a list, and tells how many of its sheets differ and the line of each that does; `report`
// of `replay` tells the first alone. `enumerate` counts from 0; the range `1..` ends, and a zip with
// it would end there.
fn replay_list(rt: &HostRuntime, name: &str) -> anyhow::Result<()> {
    let heap = rt.alloc();
    let path = format!(in heap; "{name}.txt")?;
    let list = fs::read_to_string(rt, path.as_str())?;
    let mut differing: usize = 0;
    for (before, line) in lines(list.as_str()).enumerate() {
        if !agrees(heap, line)? {
            differing = differing.saturating_add(1);
            println!(rt; "{name} line {} differs", before + 1)?;
        }
    }
    let sheets = lines(list.as_str()).count();
    println!(rt; "{name} {sheets} sheets, {differing} differ")?;
    Ok(())
}

fn run(rt: &HostRuntime) -> anyhow::Result<()> {
    for name in env::args(rt)?.skip(1) {
        replay_list(rt, name.as_str())?;
    }
    Ok(())
}

fn main(rt: HostRuntime) -> anyhow::Result<()> {
    run(&rt)
}
