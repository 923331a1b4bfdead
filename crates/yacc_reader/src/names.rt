// The names of a yacc text in the order of their entering, each by the places of its first byte and behind its last; an index in buckets beside them, so that a name is looked for in one bucket alone (specs/names/Names).
// Chains of numbers in a list of words: there is no heap. The places stand in two lists of words: what is proved of names (`Entered`, `Named`) speaks of lists of numbers, into which a list of pairs would be taken apart in each statement. A name is two places here: `find` and `place` ask `from ≤ past`, and a `Lexeme` holds `from < past`, which would ask more.

ghost use Rattle.std.specs.Prelude.{◌≡◌, ◌+◌, ◌*◌, ◌%◌, ◌≤◌, ◌<◌, length, set};
ghost use Rattle.std.proofs.Math.Seq.{slice};
ghost use Rattle.lr1_base.specs.hash_index.Chains.{chained};
ghost use Rattle.yacc_reader.specs.names.Names.{bucket_limit, bucket_number, held, is_name, latest, Entered, left, placing};

use lr1_base::repr::word;

// Buckets; the links follow their words.
pub const BUCKETS: usize = 2048;

// A byte is mixed into a number below `MIXED` by this factor.
const FACTOR: usize = 211;

const MIXED: usize = 65536;

// The bytes from a place up to another, none if that is not behind it.
fn bytes(text: &[u8], from: usize, past: usize) -> &[u8]
    requires { past ≤ length text.now }
    ensures { result.now ≡ slice from past text.now }
{
    &text[from.min(past)..past]
}

// A byte mixed into a number.
fn mixed(sum: u16, b: u8) -> u16
    ensures { result ≡ (sum * 211 + b) % 65536 }
{
    ((usize::from(sum) * FACTOR + usize::from(b)) % MIXED) as u16
}

// The bucket of the name that stands from a place up to another.
pub fn bucket_of(text: &[u8], from: usize, past: usize) -> usize
    requires { (from ≤ past) × (past ≤ length text.now) }
    ensures { (result ≡ bucket_number (slice from past text.now)) × (result < bucket_limit) }
{
    let name = bytes(text, from, past);
    let sum = name.iter().fold(0, |sum, b| mixed(sum, *b));
    usize::from(sum) % BUCKETS
}

// The number of the name among the first k. (The lists and how many names there are come one by one here: `Words` of module symbol_table holds them with two lists more, and a struct within that one would be taken apart as often.)
pub fn find(
    text: &[u8],
    starts: &[u16],
    pasts: &[u16],
    ix: &[u16],
    k: usize,
    from: usize,
    past: usize,
) -> Option<usize>
    requires entered { Entered text.now starts.now pasts.now ix.now k }
    requires from_le_past { (from ≤ past) × (past ≤ length text.now) }
    ensures { held result ≡ latest (is_name text.now starts.now pasts.now (slice from past text.now)) k }
{
    let name = bytes(text, from, past);
    let mut next = word(ix, bucket_of(text, from, past));
    // The index says of each name which is next in its bucket: an iterator of links would be this loop again.
    while next != 0 {
        let start = word(starts, next - 1);
        let end = word(pasts, next - 1);
        if name == bytes(text, start, end) {
            return Some(next - 1);
        }
        next = word(ix, BUCKETS + (next - 1));
    }
    None
}

// Name k, in front of the chain of its bucket. (`link` of crate trace_graph is these three lines for its own number of buckets and its own length of index: one form of both would be no shorter, and take a number more at each call.)
pub fn enter(
    starts: &mut [u16],
    pasts: &mut [u16],
    ix: &mut [u16],
    k: usize,
    bucket: usize,
    from: usize,
    past: usize,
)
    requires k_in_bounds { (k < length starts.old) × (k < length pasts.old) × (bucket_limit + k < length ix.old) }
    requires k_bound { (k < 65535) × (bucket < bucket_limit) × (from < 65536) × (past < 65536) }
    ensures starts_after { starts.new ≡ set starts.old k from }
    ensures pasts_after { pasts.new ≡ set pasts.old k past }
    ensures ix_after { ix.new ≡ chained ix.old bucket_limit bucket k }
{
    starts[k] = from as u16;
    pasts[k] = past as u16;
    let older = ix[bucket];
    ix[BUCKETS + k] = older;
    ix[bucket] = (k + 1) as u16;
}

// The number of a name, and how many there are then.
#[derive(Clone, Copy)]
pub struct Placed {
    pub number: usize,
    pub names: usize,
}

// The name that stands from a place up to another, entered unless it is there.
pub fn place(
    text: &[u8],
    starts: &mut [u16],
    pasts: &mut [u16],
    ix: &mut [u16],
    k: usize,
    from: usize,
    past: usize,
) -> Placed
    requires entered { Entered text.now starts.old pasts.old ix.old k }
    requires k_in_bounds { (k < length starts.old) × (k < length pasts.old) × (bucket_limit + k < length ix.old) × (k < 65535) }
    requires from_le_past { (from ≤ past) × (past ≤ length text.now) × (past < 65536) }
    ensures { left starts.new pasts.new ix.new result ≡ placing text.now starts.old pasts.old ix.old k from past }
{
    match find(text, starts, pasts, ix, k, from, past) {
        Some(number) => Placed { number, names: k },
        None => {
            let bucket = bucket_of(text, from, past);
            enter(starts, pasts, ix, k, bucket, from, past);
            Placed {
                number: k,
                names: k + 1,
            }
        }
    }
}
