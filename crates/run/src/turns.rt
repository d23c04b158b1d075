// The turns of a run, in a network and a table that `ready` found right.
ghost use Rattle.std.specs.Prelude.{◌≡◌, true, ℕ, ◌≤◌, replicate};
ghost use Rattle.bits.specs.Bits.{word_of};
ghost use Rattle.network.specs.Handed.{network};
ghost use Rattle.table.specs.Handed.{SameSlices, table_held};
ghost use Rattle.table.specs.Run.{Runs, steps};
ghost use Rattle.run.specs.Flags.{Flagged};
ghost use Rattle.run.specs.Turns.{Prepared, AllEquipped, Turned, nobody};

use crate::search::search_flagged;
use hear::Gateway;
use network::Network;
use refusal::Refusal;
use table::{Message, Ran, TableMut};

// The gateway that stands for a number that is no node: it has no neighbour and no function.
fn nobody(p: usize, most: usize) -> Gateway
    ensures { result ≡ nobody p most }
{
    Gateway {
        p,
        most,
        neighbours: 0,
        convert: [[0; 8]; 8],
        wrap: [[0; 8]; 8],
        unwrap: [[0; 8]; 8],
    }
}

// Every node as the gateway that hears, so that a run works them out once. The caller lends the room, so that they are not copied from place to place.
fn equip(net: &Network, stacks: usize, gateways: &mut [Gateway; 32])
    requires few { net.now.n ≤ 32 }
    requires empty { gateways.old ≡ replicate 32 (nobody net.now.p stacks) }
    ensures { AllEquipped (network net.now) stacks gateways.new }
{
    for node in 0..net.n {
        gateways[node] = step::gateway_at(net, stacks, node);
    }
}

// First waiting and then deliver, once: how many rows took an offer, or None where no message waits. The flags say which blocks of rows may hold a
// message; where a row took an offer, the receiver's block is flagged.
fn take_turn(
    net: &Network,
    stacks: usize,
    table: &mut TableMut,
    flags: &mut [u32],
    gateways: &[Gateway; 32],
) -> Result<Option<usize>, Refusal>
    requires prepared { Prepared (network net.now) stacks (table_held table.old) }
    requires equipped { AllEquipped (network net.now) stacks gateways.now }
    requires flagged { Flagged net.now.n stacks flags.old table.old.waiting.now }
    ensures { Turned (network net.now) stacks (table_held table.old) result (table_held table.new) flags.new
        × SameSlices table.old table.new }
{
    let n = net.n;
    let Some(found) = search_flagged(n, stacks, flags, table) else {
        return Ok(None);
    };
    let sender = found.word / stacks / n;
    let receiver = found.bit;
    let destination = found.word / stacks % n;
    let number = found.word % stacks + 1;
    let gateway = gateways[receiver];
    let back = net.link(receiver, sender);
    let message = Message {
        sender,
        receiver,
        destination,
        number,
    };
    let offers = step::step(n, gateway, back, table, message)?;
    if 0 < offers {
        flags[receiver] = bits::with_one(flags[receiver], destination);
    }
    Ok(Some(offers))
}

// The flags of one node, all of them set.
fn all_flags(n: usize) -> u32
    requires { n ≤ 32 }
    ensures { result ≡ word_of n (λ (d : ℕ). true) }
{
    let mut word: u32 = 0;
    for d in 0..n {
        word = bits::with_one(word, d);
    }
    word
}

// Turns until quiet, until one is refused, or until `limit` are done.
pub(crate) fn take_turns(net: &Network, stacks: usize, table: &mut TableMut, limit: u32) -> Ran
    requires { Prepared (network net.now) stacks (table_held table.old) }
    ensures { Runs (steps (network net.now) limit (table_held table.old)) result (table_held table.new) × SameSlices table.old table.new }
{
    let mut gateways = [nobody(net.p, stacks); 32];
    equip(net, stacks, &mut gateways);
    let mut flags = [all_flags(net.n); 32];
    let mut offers: u64 = 0;
    for done in 0..limit {
        match take_turn(net, stacks, table, &mut flags, &gateways) {
            Ok(Some(taken)) => {
                offers += taken as u64;
            }
            Ok(None) => {
                return Ran {
                    done,
                    offers,
                    refused: None,
                };
            }
            Err(refusal) => {
                return Ran {
                    done,
                    offers,
                    refused: Some(refusal),
                };
            }
        }
    }
    Ran {
        done: limit,
        offers,
        refused: None,
    }
}
