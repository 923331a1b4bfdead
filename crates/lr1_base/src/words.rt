// What the layers do to lists of words, whatever the words mean.

ghost use Rattle.std.specs.Prelude.{◌≡◌, ◌++◌, ◌≤◌, ◌<◌, suc, length, take, drop};
ghost use Rattle.lr1_base.specs.words.Insert.{inserted_at};
ghost use Rattle.lr1_base.specs.words.Lent.{zeroed};

// The first words of one slice copied to the front of another: the library's copying, in the words that contracts have for it.
pub fn copy_words(from: &[u16], to: &mut [u16], n: usize)
    requires { (n ≤ length from.now) × (n ≤ length to.old) }
    ensures { to.new ≡ take n from.now ++ drop n to.old }
{
    to[..n].copy_from_slice(&from[..n]);
}

// x goes in at a place among the first n words; what stands from there on moves up by one, over what stood at n.
// How many of the words are in use is a number beside them: there is no heap.
pub fn insert_at(list: &mut [u16], at: usize, n: usize, x: u16)
    requires { (at ≤ n) × (n < length list.old) }
    ensures { list.new ≡ inserted_at at x (take n list.old) ++ drop (suc n) list.old }
{
    list.copy_within(at..n, at + 1);
    list[at] = x;
}

// The first n words zero: the library's filling, in the words that contracts have for it.
pub fn zero(words: &mut [u16], n: usize)
    requires { n ≤ length words.old }
    ensures { words.new ≡ zeroed n words.old }
{
    words[..n].fill(0);
}
