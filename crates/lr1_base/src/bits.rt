// Flags, 64 to a word. They stand in words that are parts of a longer array or lent, so that their number is asked at each call; there is no heap.

ghost use Rattle.std.specs.Prelude.{◌≡◌, ◌/◌, ◌<◌, length};
ghost use Rattle.lr1_base.specs.bits.Bits.{bit_at, bit_put};

pub fn is_set(words: &[u64], k: usize) -> bool
    requires { k / 64 < length words.now }
    ensures { result ≡ bit_at words.now k }
{
    (words[k / 64] >> (k % 64)) & 1 == 1
}

pub fn put(words: &mut [u64], k: usize)
    requires { k / 64 < length words.old }
    ensures { words.new ≡ bit_put words.old k }
{
    let i = k / 64;
    words[i] = words[i] | 1 << (k % 64);
}
