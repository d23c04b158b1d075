// The small network of the specification: run to quiet, then each row that has a cost, then how many messages wait.
#![tactic(auto)]

use functions::{Function, Kind};
use network::Network;
use refusal::Refusal;
use std::io;
use table::{Table, TableMut};

// p = 2 (a is 0, b is 1), h = 2, so there are 6 stacks; four nodes in a line: 0 to 1 costs 2, back 7; 1 to 2 costs 3, back 3; 2 to 3 costs 1, back 4.
const LINKS: [u16; 16] = [0, 2, 0, 0, 7, 0, 3, 0, 0, 3, 0, 1, 0, 0, 4, 0];

// Twelve numbers for each node: convert, wrap, unwrap. Nodes 0 and 3 convert a to a at price 0, node 1 wraps a in b at 5, node 2 unwraps a from b at 1.
const FUNCTIONS: [u16; 48] = [
    1, 0, 0, 0, 0, 0, 0, 0, 0, 0, 0, 0, 0, 0, 0, 0, 0, 6, 0, 0, 0, 0, 0, 0, 0, 0, 0, 0, 0, 0, 0, 0,
    0, 2, 0, 0, 1, 0, 0, 0, 0, 0, 0, 0, 0, 0, 0, 0,
];

fn letter(protocol: usize) -> char {
    if protocol == 0 { 'a' } else { 'b' }
}

// The stack of a number, bottom to top.
fn print_stack(rt: &impl Print, number: usize) -> io::Result<()> {
    let mut stack = [0; 2];
    let height = stacks::stack_of(2, 2, number, &mut stack).unwrap_or(0);
    for protocol in stack.iter().take(height) {
        print!(rt; "{}", letter(usize::from(*protocol)))?;
    }
    Ok(())
}

// What is on top before and after a function.
fn print_function(rt: &impl Print, number: usize) -> io::Result<()> {
    let Ok(function) = Function::try_from(number) else {
        return Ok(());
    };
    let a = letter(function.a);
    let b = letter(function.b);
    match function.kind {
        Kind::Convert => print!(rt; "{a}>{b}"),
        Kind::Wrap => print!(rt; "{a}>{a}{b}"),
        Kind::Unwrap => print!(rt; "{a}{b}>{a}"),
    }
}

// The way's next node and function, or two dashes at a delivery row.
fn print_way(rt: &impl Print, way: u16) -> io::Result<()> {
    if way == 65535 {
        return print!(rt; " - -");
    }
    print!(rt; " {} ", way / 256)?;
    print_function(rt, usize::from(way % 256))
}

// One line: node, destination, stack, cost, next node, function.
fn print_row(rt: &impl Print, place: usize, cost: u32, way: u16) -> io::Result<()> {
    if cost == 4294967295 { // no row
        return Ok(());
    }
    print!(rt; "{} {} ", place / 6 / 4, place / 6 % 4)?;
    print_stack(rt, place % 6 + 1)?;
    print!(rt; " {cost}")?;
    print_way(rt, way)?;
    println!(rt; "")
}

fn print_rows(rt: &impl Print, table: &Table) -> io::Result<()> {
    for (place, (cost, way)) in table.cost.iter().zip(table.way).enumerate() {
        print_row(rt, place, *cost, *way)?;
    }
    Ok(())
}

fn print_messages(rt: &impl Print, messages: Result<u64, Refusal>) -> io::Result<()> {
    match messages {
        Ok(waiting) => println!(rt; "waiting {waiting}"),
        Err(refusal) => println!(rt; "refused {}", u32::from(refusal)),
    }
}

fn main(rt: HostRuntime) -> io::Result<()> {
    let net = Network {
        n: 4,
        p: 2,
        h: 2,
        links: &LINKS,
        functions: &FUNCTIONS,
    };
    let mut cost = [0; 96];
    let mut way = [0; 96];
    let mut waiting = [0; 96];
    let mut table = TableMut {
        cost: &mut cost,
        way: &mut way,
        waiting: &mut waiting,
    };
    let _ = fresh::fresh(&net, &mut table);
    run::run(&net, &mut table, 1000);
    let table = Table {
        cost: &cost,
        way: &way,
        waiting: &waiting,
    };
    print_rows(&rt, &table)?;
    print_messages(&rt, waiting::count(&net, &table))
}
