// Reads one raw packet from standard input; prints its stack of headers from the bottom up, the stack's number and the length of the innermost
// part, or the refusal in words.
#![tactic(auto)]

ghost use Rattle.std.specs.Prelude.{◌≤◌, IfOk, length};

use headers::{Read, Unread};
use refusal::Refusal;
use std::io;

// The height bound.
const MOST_HEADERS: usize = 12;

// The longest packet: IPv6's header and the longest payload that it can tell.
const LONGEST: usize = 65575;

// Reads until the room is full or the input ends, and answers how many bytes it put at the front.
fn read_full<R: io::Read>(input: &mut R, room: &mut [u8]) -> io::Result<usize>
    ensures { IfOk result (λ n. n ≤ length room.new) }
{
    let mut done = 0;
    while done < room.len() {
        let n = input.read(&mut room[done..])?;
        if n == 0 {
            break;
        }
        done += n;
    }
    Ok(done)
}

// A stack from the bottom up, its number, and how long the innermost part is.
fn print_read(rt: &impl Print, read: Read, stack: &[u8]) -> io::Result<()> {
    print!(rt; "stack")?;
    for protocol in stack.iter().take(read.height) {
        let version = if *protocol == 0 { 4 } else { 6 };
        print!(rt; " IPv{version}")?;
    }
    println!(rt; "\nnumber {}", read.number)?;
    println!(rt;
        "bytes after the innermost header {}",
        read.to.saturating_sub(read.from)
    )
}

fn print_reason(rt: &impl Print, refusal: Refusal) -> io::Result<()> {
    match refusal {
        Refusal::Higher => print!(rt; "more than {MOST_HEADERS} headers"),
        _ => print!(rt; "{refusal}"),
    }
}

fn print_unread(rt: &impl Print, unread: Unread) -> io::Result<()> {
    print!(rt; "refused {}, ", u32::from(unread.refusal))?;
    print_reason(rt, unread.refusal)?;
    println!(rt;
        ": header {} from outside, at byte {}",
        unread.header, unread.start
    )
}

fn main(rt: HostRuntime) -> io::Result<()> {
    let mut packet = [0; LONGEST];
    let got = read_full(&mut rt.stdin(), &mut packet)?;
    let mut stack = [0; MOST_HEADERS];
    match headers::read_stack(MOST_HEADERS, &packet[..got], &mut stack) {
        Ok(read) => print_read(&rt, read, &stack),
        Err(unread) => print_unread(&rt, unread),
    }
}
