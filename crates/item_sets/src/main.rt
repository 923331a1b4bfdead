// Answers the stored questions of token sets and items, which have no entry for C (tests/c/replay.c asks the others): reads requests from standard input, and prints an answer a line.
// A request, in little-endian 16-bit words: op; number of table words, low then high; the table; number of further words; the further words. Those that are missing are zeros.
// Ops: 14 token sets (number of terminals, token, four words of a first set, four of a second); 15 an item (production, index).
// An answer begins with answer and place. 14: length, whether it has the token, whether the end; the set after insert, insert_eof, take_eof and whether each did something; the same of union_with;
// the intersection, whether they are disjoint, whether they meet; the sets of new, from, all, eof; the members; a set is two numbers, its low half first. 15: numbers of symbols before, at and after the cursor, whether it can shift,
// whether it can reduce, the nonterminal that it can shift plus 1 or 0; the symbols before it, all, those after it. An unknown op gets `?`; a request that is cut short or too long for the buffers ends the run.
#![tactic(auto)]

pub mod say;
pub mod sets;
pub mod words;

ghost use Rattle.std.specs.Prelude.{◌≤◌, length};

use lr1_base::le_words::decode;
use lr1_base::repr::word;
use sets::{ask_item, ask_sets};
use std::io;
use std::io::Read;
use table::RECORDS;
use words::Request;

// Words of a table's buffer, a record more than a table has, and further words of a request.
const WORDS: usize = (RECORDS + 1) * 4;

const MORE: usize = 8448;

// Fills a list with words, by way of bytes; none if the input is shorter.
fn read_words<R: io::Input>(rt: &R, out: &mut [u16]) -> Option<()>
    requires { length out.old ≤ 32772 }
{
    let mut bytes = [0u8; WORDS * 2];
    let size = out.len() * 2;
    rt.reader().read_exact(&mut bytes[..size]).ok()?;
    decode(&bytes[..size], out);
    Some(())
}

// By its number, as a request has it: any number may stand there.
fn ask<R: Print>(rt: &R, op: u16, request: Request) {
    match op {
        14 => ask_sets(rt, request),
        15 => ask_item(rt, request),
        _ => {
            let _ = print!(rt; "?");
        }
    }
    let _ = println!(rt; "");
}

// The further words, and the answer.
fn replay_rest<R: io::Input + Print>(rt: &R, op: u16, table: &[u16]) -> Option<()> {
    let mut more = [0u16; MORE];
    read_words(rt, &mut more[..1])?;
    let n = word(&more, 0);
    if n > MORE {
        return None;
    }
    read_words(rt, &mut more[..n])?;
    ask(
        rt,
        op,
        Request {
            table,
            more: &more[..n],
        },
    );
    Some(())
}

// One request; none at the end of the input. The form is the sample's own.
fn replay<R: io::Input + Print>(rt: &R) -> Option<()> {
    let mut head = [0u16; 3];
    let mut table = [0u16; WORDS];
    read_words(rt, &mut head)?;
    let n = word(&head, 1) + word(&head, 2) * 65536;
    if n > WORDS {
        return None;
    }
    read_words(rt, &mut table[..n])?;
    replay_rest(rt, head[0], &table[..n])
}

// A loop over a stream has to end, so it counts its requests.
fn main(rt: HostRuntime) {
    for _ in 0..1000000 {
        if replay(&rt).is_none() {
            break;
        }
    }
}
